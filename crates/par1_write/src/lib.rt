// Writing of Par 1.0 files and of their entries (document 01, "What comes back").
#![tactic(auto)]

mod entry_writing;
mod volume_writing;

pub use entry_writing::write_entry;
pub use volume_writing::write_volume;
