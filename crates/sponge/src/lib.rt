#![tactic(auto)]

// The definitions of FIPS 202 with their values, in specs/ and proofs/. The crate has no code.
