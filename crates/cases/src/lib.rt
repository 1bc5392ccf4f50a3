// The worked sheets of document 01, computed by the checker: specs/ has the sheets and proofs/ the claims. There is no code.
#![tactic(auto)]
