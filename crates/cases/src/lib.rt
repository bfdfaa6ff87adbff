// The marked cases of document 01, computed on the definitions of `rules` and `table`: the tables stand in specs/, the statements in proofs/. No code is here.
#![tactic(auto)]
