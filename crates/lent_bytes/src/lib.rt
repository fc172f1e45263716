// Stores into lent bytes, what a call answers that writes there (document 01, "What comes back"), and the comparing of bytes and of lengths.
#![tactic(auto)]

ghost use Rattle.std.specs.Prelude.{◌≡◌, min, max};
ghost use Rattle.lent_bytes.specs.Writing.{written, writing_refusal, with_number};

mod comparing;

pub use comparing::same;
pub use little_endian::put;
use refusals::{NO_ROOM, Refusal};

// The refusal that an answer is, with the number 0 where it is accepted.
pub fn refusal_of(writing: Result<usize, Refusal>) -> Refusal
    ensures { result ≡ writing_refusal writing }
{
    match writing {
        Ok(_) => refusals::bare(0),
        Err(refusal) => refusal,
    }
}

// Writes `bytes` over the first bytes of `out`, and answers 0; or answers 14, and writes nothing, where it is shorter.
pub fn write<'a, 'b>(out: &'a mut [u8], bytes: &'b [u8]) -> u32
    ensures { (result, out.new) ≡ with_number (written bytes.now out.old) }
{
    if out.len() < bytes.len() {
        return NO_ROOM;
    }
    put(out, 0, bytes);
    0
}

// The lesser of two lengths.
pub fn lesser(a: usize, b: usize) -> usize
    ensures { result ≡ min a b }
{
    a.min(b)
}

// The greater of two lengths.
pub fn greater(a: usize, b: usize) -> usize
    ensures { result ≡ max a b }
{
    a.max(b)
}
