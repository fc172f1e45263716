// Folding obeys the sums (document 02, 2026-12): definitions and claims in specs/, laws in proofs/, and no code.
#![tactic(auto)]
