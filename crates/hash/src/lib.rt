// The hash of every repetition's vector with H = [H' | identity]: sums of each four coordinates, looked up by the rows
// of H'.
#![tactic(auto)]

pub mod lookups;
pub mod vectors;
