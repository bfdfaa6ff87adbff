// Demand 3 in buffers and calls: each call on bytes is a step of the history of which `history` speaks. The statements stand in specs/, their proofs in proofs/. No code is here.
#![tactic(auto)]
