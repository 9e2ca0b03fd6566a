#![tactic(auto)]

// Examples over GF(256) with two and with three repetitions, computed on the definitions, with expected bytes from
// other hands. They stand in specs/ and proofs/. The crate has no code.
