// The tests of adding and dropping (document 02, 2026-08), all before a byte is written, and where the row lies.
ghost use Rattle.std.specs.Prelude.{◌≡◌, true, [], ◌&&◌, ◌-◌, ltb, eqb, length, get_or, Ok};
ghost use Rattle.std.specs.List.{take_while};
ghost use Rattle.computed_tests.specs.Numbers.{one_to};
ghost use Rattle.par1_read.specs.Reading.{read_of};
ghost use Rattle.catalog.specs.Rows.{number_of};
ghost use Rattle.catalog.specs.Catalog.{is_catalog};
ghost use Rattle.catalog.specs.Plan.{counts_of, place_in, plan_by, plan_add, plan_drop};

use crate::checking::Counts;
use crate::rows::{number_of, rows_at};
use crate::{HEAD_LENGTH, ROW_LENGTH, checking, entry_rows};
use par1_read::Parts;
use par1_rules::layout;
use refusals::test;

// Of a catalog: the number of its rows, where the row of a volume lies or is to lie, where the rows end, and whether the row is there.
#[derive(Clone, Copy)]
pub struct Place {
    pub entries: usize,
    pub volumes: usize,
    pub at: usize,
    pub to: usize,
    pub present: bool,
}

// Where the row of a volume that is read is to lie, or the number of the first test that holds; the room is not tested.
pub(crate) fn plan_add(bytes: &[u8], volume: &[u8], parts: Parts) -> Result<Place, u32>
    requires { read_of volume.now ≡ Ok parts }
    ensures { result ≡ plan_add bytes.now volume.now }
{
    let counts = checking::find(bytes).ok_or(refusals::CATALOG)?;
    let place = counts.locate(bytes, parts.number);
    let list = layout::part(volume, layout::HEADER_LENGTH, parts.list_size as usize);
    let rows = layout::part(bytes, HEAD_LENGTH, ROW_LENGTH * counts.entries);
    let few = parts.entries <= refusals::MAX_ENTRIES;
    let from_11 = test(refusals::ALREADY, !place.present, 0);
    let from_26 = test(refusals::ENTRIES, few, from_11);
    let from_25 = test(refusals::ROWS, entry_rows::gives_rows(list, rows), from_26);
    let number = test(
        refusals::OUT_OF_RANGE,
        in_range(parts.number, counts.saved),
        from_25,
    );
    plan_by(number, place)
}

// Where the row of volume `number` lies, or the number of the first test that holds.
pub(crate) fn plan_drop(bytes: &[u8], number: u64) -> Result<Place, u32>
    ensures { result ≡ plan_drop bytes.now number }
{
    let counts = checking::find(bytes).ok_or(refusals::CATALOG)?;
    let place = counts.locate(bytes, number);
    let from_11 = test(refusals::ALREADY, place.present, 0);
    let refusal = test(
        refusals::OUT_OF_RANGE,
        in_range(number, counts.saved),
        from_11,
    );
    plan_by(refusal, place)
}

// The change at `place`, unless `number` is that of a refusal.
fn plan_by(number: u32, place: Place) -> Result<Place, u32>
    ensures { result ≡ plan_by number place }
{
    if number != 0 {
        return Err(number);
    }
    Ok(place)
}

impl Counts {
    // Where the row of volume `number` lies in the catalog, or is to lie.
    fn locate(self, bytes: &[u8], number: u64) -> Place
        requires { (is_catalog bytes.now ≡ true) × (self ≡ counts_of bytes.now) }
        ensures { result ≡ place_in bytes.now number }
    {
        let start = HEAD_LENGTH + ROW_LENGTH * self.entries;
        let rows = rows_at(bytes, start, self.volumes);
        let place = place_of(rows, number);
        Place {
            entries: self.entries,
            volumes: self.volumes,
            at: start + ROW_LENGTH * place,
            to: start + ROW_LENGTH * self.volumes,
            present: is_row_of(rows, place, number),
        }
    }
}

// How many rows in front have a lower number: the place, from 0, of the first that has none.
fn place_of(rows: &[[u8; ROW_LENGTH]], number: u64) -> usize
    ensures { result ≡ length (take_while (λ r. ltb (number_of r) number) rows.now) }
{
    rows.iter()
        .take_while(|row| number_of(row) < number)
        .count()
}

// Whether there is a row at this place, from 0, and it has the number `number`.
fn is_row_of(rows: &[[u8; ROW_LENGTH]], place: usize, number: u64) -> bool
    ensures { result ≡ (ltb place (length rows.now) && eqb (number_of (get_or rows.now place [])) number) }
{
    place < rows.len() && number_of(&rows[place]) == number
}

// Whether `number` may be that of a volume of `saved` saved files.
fn in_range(number: u64, saved: u64) -> bool
    ensures { result ≡ one_to (255 - saved) number }
{
    1 <= number && number <= 255u64.saturating_sub(saved)
}
