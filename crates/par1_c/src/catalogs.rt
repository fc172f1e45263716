// The calls on a catalog, which stands in the first bytes of its room (document 02, 2026-08: "A haul index"). The records of a load are C's
// struct par1_row.
ghost use Rattle.std.specs.Prelude.{◌≡◌};
ghost use Rattle.catalog.specs.Calls.{open_of, add_of, drop_of, load_of};
ghost use Rattle.par1_c.specs.Answers.{answered_length, answered_rows, filled_count, load_plan};

use crate::{answer, length_told};
use catalog::Row;
use refusals::Refusal;

// What a load answers, and how many records it fills: both, refused or not, since C gets the answer as a number.
#[derive(Clone, Copy)]
pub struct LoadPlan {
    pub answer: u64,
    pub count: usize,
}

// Opens a catalog from the list of `file` over the first bytes of `out`; the value of the answer is its length.
#[unsafe(no_mangle)]
pub extern "C" fn par1_catalog_open(file: &[u8], out: &mut [u8]) -> u64
    ensures { (result, out.new) ≡ answered_length (open_of file.now out.old) }
{
    answer(length_told(catalog::open(file, out)))
}

// Adds a volume to the catalog; the value of the answer is its new length.
#[unsafe(no_mangle)]
pub extern "C" fn par1_catalog_add(catalog: &mut [u8], volume: &[u8]) -> u64
    ensures { (result, catalog.new) ≡ answered_length (add_of catalog.old volume.now) }
{
    answer(length_told(catalog::add(catalog, volume)))
}

// Drops a volume from the catalog; the value of the answer is its new length.
#[unsafe(no_mangle)]
pub extern "C" fn par1_catalog_drop(catalog: &mut [u8], number: u64) -> u64
    ensures { (result, catalog.new) ≡ answered_length (drop_of catalog.old number) }
{
    answer(length_told(catalog::drop_volume(catalog, number)))
}

// Fills a record for each entry of the catalog, in order; the value of the answer is how many they are. The records past them stay.
#[unsafe(no_mangle)]
pub extern "C" fn par1_catalog_load(catalog: &[u8], rows: &mut [Row]) -> u64
    ensures { (result, rows.new) ≡ answered_rows (load_of catalog.now rows.old) }
{
    let plan = load_plan(catalog, rows.len());
    for i in 0..plan.count {
        rows[i] = catalog::row_at(catalog, i);
    }
    plan.answer
}

// What a load into `room` records answers, and how many it fills: none where it is refused.
fn load_plan(catalog: &[u8], room: usize) -> LoadPlan
    ensures { result ≡ load_plan catalog.now room }
{
    let writing = catalog::loading(catalog, room);
    LoadPlan {
        answer: answer(length_told(writing)),
        count: filled(writing),
    }
}

// How many records a load fills that answers so.
fn filled(writing: Result<usize, Refusal>) -> usize
    ensures { result ≡ filled_count writing }
{
    match writing {
        Ok(count) => count,
        Err(_) => 0,
    }
}
