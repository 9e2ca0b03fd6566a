#![tactic(auto)]

// Request 8, "the proof keeps the witness": what a verifier sees, and that it favours no solution. The statements and
// theorems stand in specs/ and proofs/. The crate has no code.
