// What comes back with Cauchy coefficients (document 02, 2026-13): specs/Claim.antt says it, proofs/AnyWillDo.antt proves it. There is no code.
#![tactic(auto)]
