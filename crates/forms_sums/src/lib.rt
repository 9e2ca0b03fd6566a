// The sums of each five rows of a table of chunks, and the sums of those that the bits of bytes choose.
#![tactic(auto)]

pub mod sums;
