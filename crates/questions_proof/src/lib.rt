// The questions 11, of a witness, and 12, 13 and 18, of a proof.
#![tactic(auto)]

pub mod proof;
pub mod witness;
