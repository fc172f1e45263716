// Tests that the checker computes, and lists and searches by a rule, for the definitions and proofs of other crates: laws, and no code.
#![tactic(auto)]
