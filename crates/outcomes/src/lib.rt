// Definitions and laws of the outcomes of a table; no code.
#![tactic(auto)]
