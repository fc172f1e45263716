// Text into the caller's buffer, and the reading of lines, words and numbers.
#![tactic(auto)]

ghost use Rattle.std.specs.Prelude.{◌≡◌};
ghost use Rattle.text.specs.Hex.{is_hex_digit, all_hex_digits};

mod closure;
mod fitting;
mod scan;
mod writer;

pub use closure::written_by;
pub use fitting::{Text, written};
pub use scan::{is_decimal, line_length, value_of, word_length};
pub use writer::Writer;

// Whether each byte of `word` is a hexadecimal digit in lower case.
pub fn all_hex_digits(word: &[u8]) -> bool
    ensures { result ≡ all_hex_digits word.now }
{
    word.iter().all(|byte| is_hex_digit(*byte))
}

// Whether `byte` is a hexadecimal digit in lower case.
#[tactic(auto, unfolding(crate::specs::Hex::is_hex_digit))]
fn is_hex_digit(byte: u8) -> bool
    ensures { result ≡ is_hex_digit byte }
{
    matches!(byte, b'0'..=b'9' | b'a'..=b'f')
}
