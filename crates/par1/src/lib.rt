// Par 1.0 files (documents 000 and 01): reading, writing and checking. A refusal has the number of the first test that
// holds (document 01, "What comes back"), and the place of the entry that it is about (document 02, 2026-01).
#![tactic(auto)]

mod checking;

pub use checking::{check, check_lone};
pub use codes::Code;
pub use par1_read::{Parts, read};
pub use par1_write::{write_entry, write_volume};
pub use refusals::Refusal;
