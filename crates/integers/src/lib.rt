#![tactic(auto)]
// Laws of whole numbers, in proofs/, and the words of the definitions, in specs/. There is no code.
