// A catalog of a set: a row for each entry of its list and one for each volume that there is (document 02, 2026-08: "A haul index"). It stands
// in the first bytes of its room.
#![tactic(auto)]

ghost use Rattle.std.specs.Prelude.{◌≡◌, Ok};
ghost use Rattle.par1_read.specs.Reading.{read_of};
ghost use Rattle.catalog.specs.Calls.{open_of, add_of, drop_of};

mod checking;
mod entry_rows;
mod moving;
mod opening;
mod planning;
mod records;
mod rows;

use par1_read::Parts;
use par1_rules::layout;
pub use records::{Row, loading, row_at};
use refusals::{Refusal, bare};

// The four numbers before the rows.
pub(crate) const HEAD_LENGTH: usize = 16;

// The length of a row: a number, a size and a hash.
pub(crate) const ROW_LENGTH: usize = 28;

// Writes the catalog of the list of `file`, with no volumes, over the first bytes of `out`.
pub fn open(file: &[u8], out: &mut [u8]) -> Result<usize, Refusal>
    ensures { (result, out.new) ≡ open_of file.now out.old }
{
    let parts = par1::read(file)?;
    opening::open_read(file, parts, out)
}

// Adds the row of `volume` to the catalog; the answer is its new length.
pub fn add(catalog: &mut [u8], volume: &[u8]) -> Result<usize, Refusal>
    ensures { (result, catalog.new) ≡ add_of catalog.old volume.now }
{
    let parts = par1::read(volume)?;
    add_read(catalog, volume, parts)
}

// Drops the row of volume `number` from the catalog; the answer is its new length.
pub fn drop_volume(catalog: &mut [u8], number: u64) -> Result<usize, Refusal>
    ensures { (result, catalog.new) ≡ drop_of catalog.old number }
{
    let place = planning::plan_drop(catalog, number).map_err(bare)?;
    place.remove_row(catalog);
    opening::put_head(catalog, place.entries, place.volumes - 1);
    Ok(place.to - ROW_LENGTH)
}

// Adds the row of a volume that is read.
fn add_read(catalog: &mut [u8], volume: &[u8], parts: Parts) -> Result<usize, Refusal>
    requires { read_of volume.now ≡ Ok parts }
    ensures { (result, catalog.new) ≡ add_of catalog.old volume.now }
{
    let place = planning::plan_add(catalog, volume, parts).map_err(bare)?;
    let total = place.to + ROW_LENGTH;
    if catalog.len() < total {
        return Err(bare(refusals::NO_ROOM));
    }
    let hash = layout::part(volume, layout::CONTROL_HASH_AT, layout::HASH_LENGTH);
    let row = entry_rows::row_of(parts.number, parts.data_size, hash);
    place.insert_row(catalog, &row);
    opening::put_head(catalog, place.entries, place.volumes + 1);
    Ok(total)
}
