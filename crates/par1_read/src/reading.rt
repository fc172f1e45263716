// Reading of index files and volumes (document 01, "What comes back", tests 1 to 9; document 02, 2026-01, has 16 to 19 for 6).
ghost use Rattle.std.specs.Prelude.{◌≡◌};
ghost use Rattle.par1_read.specs.Reading.{header_refusal, control_refusal, totals_refusal};
ghost use Rattle.refusals.specs.Tests.{told};
ghost use Rattle.par1_read.specs.Reading.{parts_from, read_from, read_of, reading_refusal};

use codes::Code;
use entries::Totals;
use par1_rules::{hashes, layout, rules};
use refusals::{Refusal, bare, refuse_unless};

// The parts of an accepted file: program identifier, volume number (0 for the index), number of entries and of saved ones, where
// list and data lie, and the code. The list starts at byte 96.
#[derive(Clone, Copy)]
pub struct Parts {
    pub program: u32,
    pub number: u64,
    pub entries: u64,
    pub saved: u64,
    pub list_size: u64,
    pub data_start: u64,
    pub data_size: u64,
    pub code: Code,
}

// The parts of `file`, or the refusal by the first test that holds. A file whose header is refused has no list to walk over.
pub fn read(file: &[u8]) -> Result<Parts, Refusal>
    ensures { result ≡ read_of file.now }
{
    header_tests(file, file.len())?;
    let list_size = little_endian::read64(file, layout::LIST_SIZE_AT);
    let list = layout::part(file, layout::HEADER_LENGTH, list_size as usize);
    let digest = md5_digest::digest(&file[layout::SET_HASH_AT..]);
    let set = hashes::of_set(list);
    read_from(file, file.len(), &digest, &set, entries::walk(list))
}

// What reading a file of `length` bytes gives that begins with `head`: `digest` is the MD5 of its bytes from 32 on, `set` the set hash of
// its list, and `walked` the walk over the list, of which a refusal with the number 0 is none.
pub fn read_from(
    head: &[u8],
    length: usize,
    digest: &[u8],
    set: &[u8],
    walked: Result<Totals, Refusal>,
) -> Result<Parts, Refusal>
    ensures { result ≡ read_from head.now length digest.now set.now walked }
{
    header_tests(head, length)?;
    control_test(head, digest)?;
    match walked {
        Ok(totals) => {
            totals_tests(head, set, totals)?;
            Ok(parts_from(head, totals.saved))
        }
        Err(refusal) if refusal.number == 0 => Ok(parts_from(head, 0)),
        Err(refusal) => Err(refusal),
    }
}

// The refusal that a reading is, with the number 0 where it is accepted.
pub fn refusal_of(reading: Result<Parts, Refusal>) -> Refusal
    ensures { result ≡ reading_refusal reading }
{
    match reading {
        Ok(_) => bare(0),
        Err(refusal) => refusal,
    }
}

// Tests 1 to 4.
#[tactic(auto, using(par1_rules::proofs::RuleLaws::signature_is), unfolding(crate::specs::Reading::header_refusal))]
fn header_tests(head: &[u8], length: usize) -> Result<(), Refusal>
    ensures { result ≡ told (header_refusal head.now length) }
{
    let version = little_endian::read32(head, layout::VERSION_AT);
    refuse_unless(rules::length_allowed(length), refusals::SIZE)?;
    refuse_unless(
        little_endian::read64(head, 0) == layout::SIGNATURE,
        refusals::SIGNATURE,
    )?;
    refuse_unless(rules::version_allowed(version), refusals::VERSION)?;
    refuse_unless(rules::layout_allowed(head, length), refusals::LAYOUT)
}

// Test 5.
#[tactic(auto, unfolding(crate::specs::Reading::control_refusal))]
fn control_test(head: &[u8], digest: &[u8]) -> Result<(), Refusal>
    ensures { result ≡ told (control_refusal head.now digest.now) }
{
    let hash = layout::part(head, layout::CONTROL_HASH_AT, layout::HASH_LENGTH);
    refuse_unless(lent_bytes::same(hash, digest), refusals::CONTROL_HASH)
}

// Tests 19, 7, 8 and 9.
#[tactic(auto, unfolding(crate::specs::Reading::totals_refusal))]
fn totals_tests(head: &[u8], set: &[u8], totals: Totals) -> Result<(), Refusal>
    ensures { result ≡ told (totals_refusal head.now set.now totals) }
{
    let count = little_endian::read64(head, layout::COUNT_AT);
    let number = little_endian::read64(head, layout::NUMBER_AT);
    let data_size = little_endian::read64(head, layout::DATA_SIZE_AT);
    let hash = layout::part(head, layout::SET_HASH_AT, layout::HASH_LENGTH);
    refuse_unless(totals.entries == count, refusals::ENTRY_COUNT)?;
    refuse_unless(
        rules::number_allowed(number, totals.saved),
        refusals::VOLUME_NUMBER,
    )?;
    refuse_unless(lent_bytes::same(hash, set), refusals::SET_HASH)?;
    refuse_unless(
        rules::data_allowed(number, totals.greatest, data_size),
        refusals::DATA_SIZE,
    )
}

// The parts that the header tells, with the number of saved entries.
fn parts_from(head: &[u8], saved: u64) -> Parts
    ensures { result ≡ parts_from head.now saved }
{
    Parts {
        program: little_endian::read32(head, layout::PROGRAM_AT),
        number: little_endian::read64(head, layout::NUMBER_AT),
        entries: little_endian::read64(head, layout::COUNT_AT),
        saved,
        list_size: little_endian::read64(head, layout::LIST_SIZE_AT),
        data_start: little_endian::read64(head, layout::DATA_START_AT),
        data_size: little_endian::read64(head, layout::DATA_SIZE_AT),
        code: rules::code_in(little_endian::read32(head, layout::VERSION_AT)),
    }
}
