// Document 01 as definitions: all of it stands in specs/, and what follows from it in proofs/. No code is here.
#![tactic(auto)]
