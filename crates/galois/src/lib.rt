#![tactic(auto)]

// The two fields, GF(256) and GF(16), and the field by its degree, in specs/ and proofs/. The crate has no code.
