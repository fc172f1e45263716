// The MD5 state after blocks of 64 bytes (RFC 1321, 3.4).
#![tactic(auto)]

mod blocks;
mod rounds;

pub use blocks::after_blocks;
pub use rounds::Words;
