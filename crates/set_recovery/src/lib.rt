// A missing file of a set comes back and passes its check (the tender's conditions 2 and 3): claims in specs/, laws in proofs/, and no code.
#![tactic(auto)]
