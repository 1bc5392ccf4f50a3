// What the marks of S-5 mean, proved of the definitions: specs/ has the claim and proofs/ the proof. There is no code.
#![tactic(auto)]
