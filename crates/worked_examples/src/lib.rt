// The worked examples of document 01: specs/Examples.antt is the table, proofs/Examples.antt proves it. There is no code.
#![tactic(auto)]
