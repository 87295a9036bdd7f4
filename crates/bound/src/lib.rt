// How close a drawn byte is to the exact picture: a statement and its proof, and no code.
#![tactic(auto)]
