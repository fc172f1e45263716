// The retired "checked" mark (document 02, 2026-09) and the other bits of a status that are kept and ignored (document 01): definitions in specs/, laws in
// proofs/, and no code.
#![tactic(auto)]
