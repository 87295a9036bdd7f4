// The exact share of a cell: definitions and their laws, and no code.
#![tactic(auto)]
