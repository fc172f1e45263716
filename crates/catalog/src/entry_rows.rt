// The rows of a catalog as bytes, and the entry rows of a list.
ghost use Rattle.std.specs.Prelude.{◌≡◌, ◌+◌, ◌*◌, ◌^◌, ◌<◌, ◌≤◌, length};
ghost use mathlib.Core.List.{flatten};
ghost use Rattle.std.proofs.lemmas.List.Edits.{sets};
ghost use Rattle.lent_bytes.specs.Equal.{equal};
ghost use Rattle.entries.specs.Entry.{status_of};
ghost use Rattle.entries.specs.Walk.{entries_of};
ghost use Rattle.catalog.specs.Rows.{row, file_number_after, entry_row, rows_for};

use crate::{HEAD_LENGTH, ROW_LENGTH};
use par1_rules::layout;

// Writes the entry rows of `list`, one after another.
pub(crate) fn put_rows(out: &mut [u8], list: &[u8])
    requires { 16 + 28 * length (entries_of list.now).pieces ≤ length out.old }
    ensures { out.new ≡ sets out.old 16 (flatten (rows_for (entries_of list.now).pieces)) }
{
    let mut at = HEAD_LENGTH;
    let mut saved: u64 = 0;
    for entry in entries::of(list) {
        let row = entry_row(saved, entry);
        lent_bytes::put(out, at, &row);
        saved += entries::saved_count(entries::status_of(entry));
        at += ROW_LENGTH;
    }
}

// Whether the entry rows of `list` are `rows`.
pub(crate) fn gives_rows(list: &[u8], rows: &[u8]) -> bool
    ensures { result ≡ equal (flatten (rows_for (entries_of list.now).pieces)) rows.now }
{
    let mut rest = rows;
    let mut saved: u64 = 0;
    for entry in entries::of(list) {
        let row = entry_row(saved, entry);
        let Some(after) = rest.strip_prefix(&row) else {
            return false;
        };
        saved += entries::saved_count(entries::status_of(entry));
        rest = after;
    }
    rest.is_empty()
}

// The row of an entry, where `saved` saved ones stand before it.
fn entry_row(saved: u64, entry: &[u8]) -> [u8; ROW_LENGTH]
    requires { (saved + 1 < 2 ^ 64) × (58 ≤ length entry.now) }
    ensures { result ≡ entry_row (file_number_after saved (status_of entry.now)) entry.now }
{
    let number = file_number(saved, entries::status_of(entry));
    row_of(number, entries::file_size_of(entry), layout::md5_of(entry))
}

// The bytes of a row: the lowest 4 of a number, a size, a hash.
pub(crate) fn row_of(number: u64, size: u64, hash: &[u8]) -> [u8; ROW_LENGTH]
    requires { length hash.now ≡ 16 }
    ensures { result ≡ row number size hash.now }
{
    let mut bytes = [0u8; ROW_LENGTH];
    let low = (number % 4294967296) as u32;
    little_endian::write32(&mut bytes, 0, low);
    little_endian::write64(&mut bytes, 4, size);
    lent_bytes::put(&mut bytes, 12, hash);
    bytes
}

// The file number of an entry with this status, where `saved` saved ones stand before it; 0 where it is not saved.
fn file_number(saved: u64, status: u64) -> u64
    requires { saved + 1 < 2 ^ 64 }
    ensures { result ≡ file_number_after saved status }
{
    if entries::is_saved(status) {
        saved + 1
    } else {
        0
    }
}
