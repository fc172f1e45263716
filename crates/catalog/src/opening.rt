// The opening of a catalog from a list.
ghost use Rattle.std.specs.Prelude.{◌≡◌, ◌^◌, ◌<◌, ◌≤◌, Ok};
ghost use Rattle.std.proofs.lemmas.List.Edits.{sets};
ghost use Rattle.par1_read.specs.Reading.{read_of};
ghost use Rattle.catalog.specs.Rows.{catalog_head};
ghost use Rattle.catalog.specs.Calls.{open_of};

use crate::{HEAD_LENGTH, ROW_LENGTH, entry_rows};
use par1_read::Parts;
use par1_rules::layout;
use refusals::{Refusal, bare};

// Writes the catalog of a file that is read.
pub(crate) fn open_read(file: &[u8], parts: Parts, out: &mut [u8]) -> Result<usize, Refusal>
    requires { read_of file.now ≡ Ok parts }
    ensures { (result, out.new) ≡ open_of file.now out.old }
{
    if parts.entries > refusals::MAX_ENTRIES {
        return Err(bare(refusals::ENTRIES));
    }
    let entries = parts.entries as usize;
    let total = HEAD_LENGTH + ROW_LENGTH * entries;
    if out.len() < total {
        return Err(bare(refusals::NO_ROOM));
    }
    let list = layout::part(file, layout::HEADER_LENGTH, parts.list_size as usize);
    put_head(out, entries, 0);
    entry_rows::put_rows(out, list);
    Ok(total)
}

// Writes the four numbers of a catalog with so many rows.
pub(crate) fn put_head(out: &mut [u8], entries: usize, volumes: usize)
    requires { (entries ≤ 1024) × (volumes < 2 ^ 32) }
    ensures { out.new ≡ sets out.old 0 (catalog_head entries volumes) }
{
    let start = HEAD_LENGTH + ROW_LENGTH * entries;
    little_endian::write32(out, 0, entries as u32);
    little_endian::write32(out, 4, volumes as u32);
    little_endian::write32(out, 8, HEAD_LENGTH as u32);
    little_endian::write32(out, 12, start as u32);
}
