// Which fences to add: definitions and their theory, no code.
#![tactic(auto)]
