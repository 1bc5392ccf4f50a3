// What a tally counts, proved of the definitions for every list of events: specs/ has the claims and proofs/ the proofs. There is no code.
#![tactic(auto)]
