// Reading of Par 1.0 files (document 01, "What comes back").
#![tactic(auto)]

mod reading;

pub use reading::{Parts, read, read_from, refusal_of};
