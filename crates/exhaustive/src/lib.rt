// "I tried them all", proved of the walk's definitions: specs/ has the claim and proofs/ the proof. There is no code.
#![tactic(auto)]
