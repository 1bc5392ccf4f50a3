// Demand 3, proved of the definitions: specs/ has the claim and proofs/ the proof. There is no code.
#![tactic(auto)]
