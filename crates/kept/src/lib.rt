#![tactic(auto)]
// The library, and its calls for C, keep the promises: statements in specs/ and theorems in proofs/, and no code.
