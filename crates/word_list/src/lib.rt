// No code: what a word list is, how it is read and how it is written.
#![tactic(auto)]
