// Lists cut into pieces that say their length, as the entries of a Par 1.0 list or the lines of a text: definitions in
// specs/, laws in proofs/, and no code.
#![tactic(auto)]
