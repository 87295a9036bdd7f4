// Document 01's starred examples, one table under one theorem (specs/Starred.antt), and document 02's of
// touches (specs/Touches.antt). No code.
#![tactic(auto)]
