// What the exports promise, and the client's demands over it, in specs/ and proofs/. The contracts of the exports cite
// these definitions. The crate has no code.
#![tactic(auto)]
