// Why the calls on scissors, fills, outlines and lists of boxes are refused, said without the checks, and
// what a box with a half extent below 0 meets in every call: definitions and proofs, no code.
#![tactic(auto)]
