// Definitions and laws of lists and numbers; no code.
#![tactic(auto)]
