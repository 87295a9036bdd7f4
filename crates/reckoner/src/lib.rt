// The reckoner and the claim about lists of calls: definitions and proofs, no code.
#![tactic(auto)]
