// Jobs that take their input in successive chunks (document 02, 2026-03): definitions in specs/, laws in proofs/, and no code.
#![tactic(auto)]
