// Reading of text: lines, words and decimal numbers.
ghost use Rattle.std.specs.Prelude.{◌≡◌, ◌-◌, ◌<◌, min, drop};
ghost use Rattle.text.specs.Buffer.{usize_max};
ghost use Rattle.text.specs.Decimal.{is_digit, all_digits, is_decimal, with_digit, value_of};
ghost use Rattle.text.specs.TextLines.{length_to, line_length, word_length};

// The length of the line at `at`, its byte 10 included; 0 where none ends it.
pub fn line_length(text: &[u8], at: usize) -> usize
    ensures { result ≡ line_length (drop at text.now) }
{
    let n = length_to(text, at, b'\n');
    if at + n < text.len() { n + 1 } else { 0 }
}

// The length of the word at `at`: up to a space, or to the end.
pub fn word_length(text: &[u8], at: usize) -> usize
    ensures { result ≡ word_length (drop at text.now) }
{
    length_to(text, at, b' ')
}

// Whether a word is a number in decimal, without leading zeros.
pub fn is_decimal(word: &[u8]) -> bool
    ensures { result ≡ is_decimal word.now }
{
    match word {
        [] => false,
        [b'0', ..] => word.len() == 1,
        _ => all_digits(word),
    }
}

// The number that digits spell, or the greatest of 64 bits where it is greater.
pub fn value_of(digits: &[u8]) -> u64
    ensures { result ≡ min (value_of digits.now) usize_max }
{
    digits.iter().fold(0, |value, c| with_digit(value, *c))
}

// The length of what stands at `at`, up to the first `byte`, or to the end.
fn length_to(text: &[u8], at: usize, byte: u8) -> usize
    ensures { result ≡ length_to byte (drop at text.now) }
{
    let rest = text.get(at..).unwrap_or(&[]);
    rest.iter().position(|c| *c == byte).unwrap_or(rest.len())
}

// Whether all characters are digits.
fn all_digits(s: &[u8]) -> bool
    ensures { result ≡ all_digits s.now }
{
    s.iter().all(u8::is_ascii_digit)
}

// A number with one digit more, or the greatest of 64 bits. A character below "0" is the digit 0.
fn with_digit(value: u64, c: u8) -> u64
    ensures { result ≡ min (with_digit value c) usize_max }
{
    let digit = u64::from(c.saturating_sub(b'0'));
    value.saturating_mul(10).saturating_add(digit)
}
