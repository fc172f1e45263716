// Writing of index files and volumes (document 01, "What comes back").
ghost use Rattle.std.specs.Prelude.{◌≡◌, ◌+◌, ◌-◌, ◌^◌, ◌<◌, ◌≤◌, length, take, drop};
ghost use Rattle.std.proofs.lemmas.List.Edits.{sets};
ghost use Rattle.par1_rules.specs.Rules.{length_allowed};
ghost use Rattle.refusals.specs.Tests.{told};
ghost use Rattle.par1_write.specs.VolumeWriting.{number_bytes, body_bytes, head_bytes, volume_refusal, write_volume_of};

use codes::Code;
use entries::Totals;
use par1_rules::{hashes, layout, rules};
use refusals::{Refusal, refuse_unless};

// Writes volume `number` of a code, or the index where it is 0, over the first bytes of `out`.
pub fn write_volume(
    code: Code,
    program: u32,
    number: u64,
    list: &[u8],
    data: &[u8],
    out: &mut [u8],
) -> Result<usize, Refusal>
    ensures { (result, out.new) ≡ write_volume_of code program number list.now «data».now out.old }
{
    let totals = entries::walk(list)?;
    volume_tests(number, totals, list.len(), data.len())?;
    let total = layout::HEADER_LENGTH + list.len() + data.len();
    refuse_unless(total <= out.len(), refusals::NO_ROOM)?;
    put_body(out, number, totals.entries, list, data);
    put_head(out, code, program, total);
    Ok(total)
}

// Tests 7, 9 and 1.
#[tactic(auto, unfolding(crate::specs::VolumeWriting::volume_refusal))]
fn volume_tests(
    number: u64,
    totals: Totals,
    list_len: usize,
    data_len: usize,
) -> Result<(), Refusal>
    ensures { result ≡ told (volume_refusal number totals list_len data_len) }
{
    refuse_unless(
        rules::number_allowed(number, totals.saved),
        refusals::VOLUME_NUMBER,
    )?;
    refuse_unless(
        rules::data_allowed(number, totals.greatest, data_len as u64),
        refusals::DATA_SIZE,
    )?;
    refuse_unless(total_allowed(list_len, data_len), refusals::SIZE)
}

// Whether a file may have `list_len` bytes of list and `data_len` bytes of data.
#[tactic(auto, unfolding(par1_rules::specs::Rules::length_allowed))]
fn total_allowed(list_len: usize, data_len: usize) -> bool
    ensures { result ≡ length_allowed (96 + list_len + data_len) }
{
    let most = refusals::MAX_VOLUME_LENGTH - layout::HEADER_LENGTH;
    list_len <= most && data_len <= most - list_len
}

// Writes what the control hash covers: the set hash, the numbers of the header, the list and the data.
fn put_body(out: &mut [u8], number: u64, entries: u64, list: &[u8], data: &[u8])
    requires { 96 + length list.now + length «data».now ≤ length out.old }
    ensures { out.new ≡ sets out.old 32 (body_bytes entries number list.now «data».now) }
{
    let set_hash = hashes::of_set(list);
    lent_bytes::put(out, layout::SET_HASH_AT, &set_hash);
    put_numbers(out, number, entries, list.len(), data.len());
    lent_bytes::put(out, layout::HEADER_LENGTH, list);
    lent_bytes::put(out, layout::HEADER_LENGTH + list.len(), data);
}

// Writes the six numbers of the header of a file with `list_len` bytes of list and `data_len` bytes of data.
fn put_numbers(out: &mut [u8], number: u64, entries: u64, list_len: usize, data_len: usize)
    requires { 96 + list_len < 2 ^ 64 }
    ensures { out.new ≡ sets out.old 48 (number_bytes number entries list_len data_len) }
{
    let data_start = layout::HEADER_LENGTH + list_len;
    let numbers = [
        number,
        entries,
        layout::LIST_START,
        list_len as u64,
        data_start as u64,
        data_len as u64,
    ];
    little_endian::write_numbers(out, layout::NUMBER_AT, &numbers);
}

// Writes the start of a file of a code and of `total` bytes, with the control hash of the others.
fn put_head(out: &mut [u8], code: Code, program: u32, total: usize)
    requires { (96 ≤ total) × (total ≤ length out.old) }
    ensures { out.new ≡ sets out.old 0 (head_bytes code program (take (total - 32) (drop 32 out.old))) }
{
    let version = rules::version_of(code);
    let control_hash = md5_digest::digest(&out[layout::SET_HASH_AT..total]);
    little_endian::write64(out, 0, layout::SIGNATURE);
    little_endian::write32(out, layout::VERSION_AT, version);
    little_endian::write32(out, layout::PROGRAM_AT, program);
    lent_bytes::put(out, layout::CONTROL_HASH_AT, &control_hash);
}
