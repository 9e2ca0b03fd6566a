#![tactic(auto)]

// What is proved of the definitions: statements in specs/, laws and theorems in proofs/. The crate has no code.
