// Document 01's examples to prove, as a group. No code.

#![tactic(auto)]
