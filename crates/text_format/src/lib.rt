// Tests as text: what a legal text is, what reading it gives, and the theorems that join both; no code.
#![tactic(auto)]
