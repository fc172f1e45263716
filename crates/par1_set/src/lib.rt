// Sets of files and their volumes (condition 2 of the tender, whole): definitions in specs/, laws in proofs/, and no code.
#![tactic(auto)]
