// Loading of entry rows into records that the caller lends (document 02, 2026-08: "the caller lends one row record for each listed entry,
// filled in order"). The records are filled where they are lent: the crate for C does it, by `loading` and `row_at`.
ghost use Rattle.std.specs.Prelude.{◌≡◌};
ghost use Rattle.catalog.specs.Calls.{loading_of, row_at};

use crate::{HEAD_LENGTH, ROW_LENGTH, checking};
use par1_rules::layout;
use refusals::{Refusal, bare};

// A row record, as C's struct par1_row has it: the file number, 0 where the file is not saved, its size, its MD5.
#[repr(C)]
#[derive(Clone, Copy)]
pub struct Row {
    pub file: u32,
    pub size: u64,
    pub md5: [u8; 16],
}

// What loading a catalog into `room` records answers: how many are filled, or its refusal.
pub fn loading(catalog: &[u8], room: usize) -> Result<usize, Refusal>
    ensures { result ≡ loading_of catalog.now room }
{
    let counts = checking::find(catalog).ok_or(bare(refusals::CATALOG))?;
    if room < counts.entries {
        return Err(bare(refusals::NO_ROOM));
    }
    Ok(counts.entries)
}

// The record of row `i` of a catalog, from 0; zeros where the bytes end before it.
pub fn row_at(catalog: &[u8], i: usize) -> Row
    ensures { result ≡ row_at catalog.now i }
{
    let (rows, _) = layout::part(catalog, HEAD_LENGTH, catalog.len()).as_chunks::<ROW_LENGTH>();
    let Some(row) = rows.get(i) else {
        return Row {
            file: 0,
            size: 0,
            md5: [0; 16],
        };
    };
    let mut md5 = [0; 16];
    md5.copy_from_slice(&row[12..]);
    Row {
        file: little_endian::read32(row, 0),
        size: little_endian::read64(row, 4),
        md5,
    }
}
