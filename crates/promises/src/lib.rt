#![tactic(auto)]
// What is promised of any library of this valve: rules and statements in specs/, theorems in proofs/, and no code.
