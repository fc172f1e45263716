// What C sees: the libraries' calls on numbers, byte slices and a running hash, as include/par1.h declares them. Each answers 0, or the
// document's number of a refusal; some of them tell the place of the refusal too, or the length that they wrote, in one number. A refusal
// changes no byte, save that the end of a job ends it also where it is refused, unless with 20.
#![tactic(auto)]

ghost use Rattle.std.specs.Prelude.{◌≡◌, ◌^◌, ◌<◌};
ghost use Rattle.gf256.specs.Answer.{inverse_answer};
ghost use Rattle.md5_digest.specs.Digest.{digest_into};
ghost use Rattle.parity.specs.Coefficient.{rule_of};
ghost use Rattle.mul_add.specs.MulAdd.{mul_add};
ghost use Rattle.par1.specs.Checking.{check_of};
ghost use Rattle.par1_write.specs.EntryWriting.{write_entry_of};
ghost use Rattle.par1_read.specs.Reading.{read_of};
ghost use Rattle.answer_bytes.specs.Results.{byte_into, read_into, entry_into};
ghost use Rattle.entries.specs.Walk.{first_of};
ghost use Rattle.lent_bytes.specs.Writing.{with_number};
ghost use Rattle.amending.specs.Call.{change_of, amend_of};
ghost use Rattle.par1_c.specs.Answers.{answer_of, answered, length_told, answered_length};
ghost use Rattle.par1_c.specs.Codes.{coefficient_into, volume_into};

mod catalogs;
mod hash;
mod inventories;
mod mul_adds;
mod reads;
mod replays;
mod texts;

use answer_bytes::{put_answer, put_entry, put_reading};
use codes::Code;
use lent_bytes::refusal_of;
use par1::Refusal;
use refusals::OUT_OF_RANGE;

// The MD5 of `bytes` over the first 16 bytes of `out`.
#[unsafe(no_mangle)]
pub extern "C" fn par1_md5(bytes: &[u8], out: &mut [u8]) -> u32
    ensures { (result, out.new) ≡ digest_into bytes.now out.old }
{
    md5_digest::digest_into(bytes, out)
}

// The inverse of x over the first byte of `out`.
#[unsafe(no_mangle)]
pub extern "C" fn par1_inverse(x: u8, out: &mut [u8]) -> u32
    ensures { (result, out.new) ≡ byte_into (inverse_answer x) out.old }
{
    put_answer(gf256::inverse(x), out)
}

// The coefficient of a file in a volume of a code over the first byte of `out`.
#[unsafe(no_mangle)]
pub extern "C" fn par1_coefficient(code: u32, file: u64, volume: u64, out: &mut [u8]) -> u32
    ensures { (result, out.new) ≡ coefficient_into code file volume out.old }
{
    let Ok(code) = Code::try_from(u64::from(code)) else {
        return OUT_OF_RANGE;
    };
    put_answer(parity::coefficient(code, file, volume), out)
}

// Adds weight times the fragment to the buffer, byte by byte, as far as both go.
#[unsafe(no_mangle)]
pub extern "C" fn par1_mul_add(weight: u8, fragment: &[u8], buffer: &mut [u8])
    ensures { buffer.new ≡ mul_add weight fragment.now buffer.old }
{
    mul_add::mul_add(weight, fragment, buffer)
}

// The parts of an index file or volume over the first 64 bytes of `out`.
#[unsafe(no_mangle)]
pub extern "C" fn par1_read(file: &[u8], out: &mut [u8]) -> u64
    ensures { (result, out.new) ≡ answered (read_into (read_of file.now) out.old) }
{
    answer(put_reading(par1::read(file), out))
}

// Length, status and file size of the first entry of a list over the first 24 bytes of `out`; zeros where the list is over.
#[unsafe(no_mangle)]
pub extern "C" fn par1_entry(list: &[u8], out: &mut [u8]) -> u32
    ensures { (result, out.new) ≡ entry_into (first_of list.now) out.old }
{
    put_entry(entries::first(list), out)
}

// Writes the entry of a file with these contents, status and name over the first bytes of `out`.
#[unsafe(no_mangle)]
pub extern "C" fn par1_write_entry(contents: &[u8], status: u64, name: &[u8], out: &mut [u8]) -> u32
    ensures { (result, out.new) ≡ with_number (write_entry_of contents.now status name.now out.old) }
{
    refusal_of(par1::write_entry(contents, status, name, out)).number
}

// Writes a volume of a code, or an index of it where the number is 0, over the first bytes of `out`.
#[unsafe(no_mangle)]
pub extern "C" fn par1_write_volume(
    code: u32,
    program: u32,
    number: u64,
    list: &[u8],
    data: &[u8],
    out: &mut [u8],
) -> u64
    ensures { (result, out.new) ≡ volume_into code program number list.now «data».now out.old }
{
    let Ok(code) = Code::try_from(u64::from(code)) else {
        return OUT_OF_RANGE as u64;
    };
    answer(refusal_of(par1::write_volume(code, program, number, list, data, out)))
}

// Amends the volume in the first `length` bytes of `volume`; the value of the answer is its new length.
#[unsafe(no_mangle)]
pub extern "C" fn par1_amend(
    volume: &mut [u8],
    length: u64,
    file: u64,
    place: u64,
    old: &[u8],
    new: &[u8],
    entry: &[u8],
) -> u64
    ensures { (result, volume.new)
        ≡ answered_length
        (amend_of rule_of length (change_of file place old.now new.now) entry.now volume.old) }
{
    answer(length_told(amending::amend(volume, length, file, place, old, new, entry)))
}

// Whether the contents are those of the entry's file.
#[unsafe(no_mangle)]
pub extern "C" fn par1_check(entry: &[u8], contents: &[u8]) -> u32
    ensures { result ≡ (check_of entry.now contents.now).number }
{
    refusals::number_of(par1::check(entry, contents))
}

// What a call that writes answers, as a number and its value: 0 and the length that it wrote, or its refusal and the place.
fn length_told(writing: Result<usize, Refusal>) -> Refusal
    ensures { result ≡ length_told writing }
{
    match writing {
        Ok(length) => Refusal {
            number: 0,
            place: length as u64,
        },
        Err(refusal) => refusal,
    }
}

// A refusal and its place in one number: the refusal's, and 32 times the place.
fn answer(refusal: Refusal) -> u64
    requires { (refusal.number < 32) × (refusal.place < 2 ^ 59) }
    ensures { result ≡ answer_of refusal }
{
    refusal.number as u64 + 32 * refusal.place
}
