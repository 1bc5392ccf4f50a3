// The steps are definitions and laws of these: the code that does a step is crate engine.
#![tactic(auto)]
