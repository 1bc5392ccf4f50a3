// What happens to a system, and what is so of every run: definitions and laws of these. There is no code.
#![tactic(auto)]
