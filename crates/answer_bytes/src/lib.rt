// Answers in lent bytes: a byte of the field, the parts of a file, and the first entry of a list. What is left to answer is a number or a refusal, as C
// gets it.
#![tactic(auto)]

ghost use Rattle.std.specs.Prelude.{◌≡◌};
ghost use Rattle.answer_bytes.specs.Results.{byte_into, parts_bytes, read_into, entry_numbers, entry_into};
ghost use Rattle.lent_bytes.specs.Writing.{written, with_number};

use entries::{Entry, Fault};
use lent_bytes::write;
use little_endian::write_numbers;
use par1_read::Parts;
use refusals::{Refusal, bare};

// The length of the parts of a file, in bytes.
const PARTS_LENGTH: usize = 64;

// The length of an entry's numbers, in bytes.
const ENTRY_LENGTH: usize = 24;

// The byte that an answer is, over the first byte of `out`.
pub fn put_answer(answer: Result<u8, u32>, out: &mut [u8]) -> u32
    ensures { (result, out.new) ≡ byte_into answer out.old }
{
    match answer {
        Err(number) => {
            return number;
        }
        Ok(byte) => {
            let bytes = [byte];
            return write(out, &bytes);
        }
    }
}

// The parts that a reading gives, over the first bytes of `out`; its refusal, or 14, with the number 0 where there is none.
pub fn put_reading(reading: Result<Parts, Refusal>, out: &mut [u8]) -> Refusal
    ensures { (result, out.new) ≡ read_into reading out.old }
{
    match reading {
        Err(refusal) => {
            return refusal;
        }
        Ok(parts) => {
            let bytes = bytes_of_parts(parts);
            return bare(write(out, &bytes));
        }
    }
}

// The numbers of the entry that a list begins with, over the first bytes of `out`; zeros where the list is over.
#[tactic(auto, unfolding(crate::specs::Results::entry_into))]
pub fn put_entry(item: Result<Option<Entry>, Fault>, out: &mut [u8]) -> u32
    ensures { (result, out.new) ≡ entry_into item out.old }
{
    match item {
        Ok(Some(entry)) => put_numbers(entry.length as u64, entry.status, entry.size, out),
        Ok(None) => put_numbers(0, 0, 0, out),
        Err(fault) => fault.number(),
    }
}

// The parts as numbers, one after another.
fn bytes_of_parts(parts: Parts) -> [u8; PARTS_LENGTH]
    ensures { result ≡ parts_bytes parts }
{
    let numbers = [
        parts.program as u64,
        parts.number,
        parts.entries,
        parts.saved,
        parts.list_size,
        parts.data_start,
        parts.data_size,
        u64::from(parts.code),
    ];
    let mut bytes = [0u8; PARTS_LENGTH];
    write_numbers(&mut bytes, 0, &numbers);
    bytes
}

// An entry's length, status and file size, over the first bytes of `out`.
fn put_numbers(length: u64, status: u64, size: u64, out: &mut [u8]) -> u32
    ensures { (result, out.new) ≡ with_number (written (entry_numbers length status size) out.old) }
{
    let numbers = [length, status, size];
    let mut bytes = [0u8; ENTRY_LENGTH];
    write_numbers(&mut bytes, 0, &numbers);
    write(out, &bytes)
}
