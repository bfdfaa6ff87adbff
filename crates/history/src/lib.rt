// Demand 3 of the contract, over the definitions of `rules`: the statement stands in specs/, its proof in proofs/. No code is here.
#![tactic(auto)]
