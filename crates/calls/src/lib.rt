// No code: what a run of calls on one image comes to.
#![tactic(auto)]
