// The layout, the hashes and the rules of Par 1.0 files that reading, writing and checking share (document 01).
#![tactic(auto)]

pub mod hashes;
pub mod layout;
pub mod rules;
