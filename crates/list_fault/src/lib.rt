// What is at fault in a word list, said without the reading: definitions and proofs, no code.
#![tactic(auto)]
