#![tactic(auto)]

// Examples computed on the definitions: 01's toy and its table, the toy at degree 4, examples over GF(16) with expected
// bytes from other hands, each call's refusals, and what one mask for all repetitions leaves to hide behind. They stand
// in specs/ and proofs/. The crate has no code.
