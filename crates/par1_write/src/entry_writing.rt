// Writing of entries (document 01, "What comes back").
ghost use Rattle.std.specs.Prelude.{◌≡◌, ◌+◌, ◌≤◌, length};
ghost use Rattle.std.proofs.lemmas.List.Edits.{sets};
ghost use Rattle.refusals.specs.Tests.{told};
ghost use Rattle.par1_write.specs.EntryWriting.{entry_bytes, entry_refusal, write_entry_of};

use entries::Fault;
use par1_rules::hashes;
use refusals::{Refusal, refuse_unless};

// The greatest status that an entry is written with: 1, saved in the parity. The mark "checked", bit 1, is no longer written.
const MAX_STATUS: u64 = 1;

// Writes the entry of a file with these contents, status and name over the first bytes of `out`.
pub fn write_entry(
    contents: &[u8],
    status: u64,
    name: &[u8],
    out: &mut [u8],
) -> Result<usize, Refusal>
    ensures { (result, out.new) ≡ write_entry_of contents.now status name.now out.old }
{
    let length = entries::NAME_AT + name.len();
    entry_tests(contents.len(), status, name)?;
    refuse_unless(length <= out.len(), refusals::NO_ROOM)?;
    put_entry(out, contents, status, name);
    Ok(length)
}

// The tests before 14.
#[tactic(auto, unfolding(crate::specs::EntryWriting::entry_refusal))]
fn entry_tests(size: usize, status: u64, name: &[u8]) -> Result<(), Refusal>
    ensures { result ≡ told (entry_refusal size status name.now) }
{
    refuse_unless(
        size as u64 <= refusals::MAX_FILE_SIZE,
        Fault::FileSize.number(),
    )?;
    refuse_unless(status <= MAX_STATUS, Fault::FileSize.number())?;
    refuse_unless(entries::name_allowed(name), Fault::Name.number())
}

// Writes the entry's fields in their order.
fn put_entry(out: &mut [u8], contents: &[u8], status: u64, name: &[u8])
    requires { 56 + length name.now ≤ length out.old }
    ensures { out.new ≡ sets out.old 0 (entry_bytes contents.now status name.now) }
{
    let entry_size = entries::NAME_AT + name.len();
    let whole = md5_digest::digest(contents);
    let first = md5_digest::digest(hashes::first_part(contents));
    little_endian::write64(out, 0, entry_size as u64);
    little_endian::write64(out, entries::STATUS_AT, status);
    little_endian::write64(out, entries::FILE_SIZE_AT, contents.len() as u64);
    lent_bytes::put(out, entries::MD5_AT, &whole);
    lent_bytes::put(out, entries::MD5_16K_AT, &first);
    lent_bytes::put(out, entries::NAME_AT, name);
}
