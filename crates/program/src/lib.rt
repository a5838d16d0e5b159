// The program as a whole: what it writes for an input, however that is cut into pieces and however the run ends. No
// code.

#![tactic(auto)]
