// How many takes and answers are ever done, proved of the definitions: specs/ has the claim and proofs/ the proof. There is no code.
#![tactic(auto)]
