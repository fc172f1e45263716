// Jobs in lent bytes (document 02, 2026-03): the caller keeps the bytes from one call to the next. What is left to answer is a number or a refusal, as
// C gets it.
#![tactic(auto)]

mod marks;
mod mul_adds;
mod reads;

pub use mul_adds::{loaded_mul_add, start_mul_add, store_mul_add};
pub use reads::{end_read, push_read, start_read};
