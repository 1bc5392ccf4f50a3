// What a sheet counts is what its steps count: specs/ has the claims and proofs/ the proofs. There is no code.
#![tactic(auto)]
