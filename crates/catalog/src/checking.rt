// Whether bytes begin with a catalog (document 02, 2026-08: "30 index bytes that, hashes apart, no list and volumes give, or that end early").
ghost use Rattle.std.specs.Prelude.{◌≡◌, ◌&&◌, ◌+◌, ◌*◌, ◌^◌, ◌<◌, ltb, leb, eqb, length};
ghost use Rattle.refusals.specs.Limits.{max_entries};
ghost use Rattle.entries.specs.Entry.{file_size_allowed};
ghost use Rattle.par1_rules.specs.Rules.{number_allowed};
ghost use Rattle.catalog.specs.Catalog.{entry_start, volume_start, in_turn, volume_rows_allowed};
ghost use Rattle.catalog.specs.Plan.{found_of, entered_of};

use crate::rows::{number_of, rows_at, size_of};
use crate::{HEAD_LENGTH, ROW_LENGTH};
use par1_rules::rules;

// Of a catalog: the number of its entry rows, of its volume rows, and of the saved files.
#[derive(Clone, Copy)]
pub struct Counts {
    pub entries: usize,
    pub volumes: usize,
    pub saved: u64,
}

// What entry rows tell: how many files are saved, and the greatest size of one.
#[derive(Clone, Copy)]
pub struct Entered {
    pub saved: u64,
    pub greatest: u64,
}

// The catalog that `bytes` begin with, where they do.
pub(crate) fn find(bytes: &[u8]) -> Option<Counts>
    ensures { result ≡ found_of bytes.now }
{
    let entries = little_endian::read32(bytes, 0) as usize;
    let volumes = little_endian::read32(bytes, 4) as usize;
    if !is_headed(bytes, entries, volumes) {
        return None;
    }
    let start = HEAD_LENGTH + ROW_LENGTH * entries;
    let Entered { saved, greatest } = read_entries(rows_at(bytes, HEAD_LENGTH, entries))?;
    volumes_allowed(rows_at(bytes, start, volumes), saved, greatest).then_some(Counts {
        entries,
        volumes,
        saved,
    })
}

// Whether the bytes reach to the end of so many rows, and tell where the rows start after these two numbers.
fn is_headed(bytes: &[u8], entries: usize, volumes: usize) -> bool
    requires { (entries < 2 ^ 32) × (volumes < 2 ^ 32) }
    ensures { result ≡ (leb (16 + 28 * (entries + volumes)) (length bytes.now) && leb entries max_entries && eqb (entry_start bytes.now) 16
        && eqb (volume_start bytes.now) (16 + 28 * entries)) }
{
    HEAD_LENGTH + ROW_LENGTH * (entries + volumes) <= bytes.len()
        && entries as u64 <= refusals::MAX_ENTRIES
        && little_endian::read32(bytes, 8) as usize == HEAD_LENGTH
        && little_endian::read32(bytes, 12) as usize == HEAD_LENGTH + ROW_LENGTH * entries
}

// What these rows tell, as entry rows.
fn read_entries(rows: &[[u8; ROW_LENGTH]]) -> Option<Entered>
    ensures { result ≡ entered_of rows.now }
{
    let mut saved: u64 = 0;
    let mut greatest: u64 = 0;
    for row in rows {
        let number = number_of(row);
        let size = size_of(row);
        if !entry_allowed(saved, number, size) {
            return None;
        }
        if number != 0 {
            saved += 1;
            greatest = greatest.max(size);
        }
    }
    (saved <= refusals::MAX_FILES).then_some(Entered { saved, greatest })
}

// Whether an entry row with this number and size may follow those of `saved` saved files: the number is 0, or the next file number.
fn entry_allowed(saved: u64, number: u64, size: u64) -> bool
    ensures { result ≡ (in_turn saved number && file_size_allowed size) }
{
    (number == 0 || number - 1 == saved) && size <= refusals::MAX_FILE_SIZE
}

// Whether these rows may be the volume rows of a catalog of `saved` saved files of at most `greatest` bytes.
fn volumes_allowed(rows: &[[u8; ROW_LENGTH]], saved: u64, greatest: u64) -> bool
    ensures { result ≡ volume_rows_allowed saved greatest 0 rows.now }
{
    let mut last: u64 = 0;
    for row in rows {
        let number = number_of(row);
        if !volume_allowed(last, number, size_of(row), saved, greatest) {
            return false;
        }
        last = number;
    }
    true
}

// Whether a volume row with this number and size may follow that of volume `last`.
fn volume_allowed(last: u64, number: u64, size: u64, saved: u64, greatest: u64) -> bool
    ensures { result ≡ (ltb last number && number_allowed number saved && eqb size greatest) }
{
    last < number && rules::number_allowed(number, saved) && size == greatest
}
