// The tests of an amendment (document 02, 2026-05), all before a byte is written, and what it is to change.
ghost use Rattle.std.specs.Prelude.{◌≡◌, ◌+◌, ◌-◌, ◌&&◌, leb, eqb, length, Ok};
ghost use Rattle.parity.specs.Coefficient.{rule_of};
ghost use Rattle.parity.specs.Parity.{is_file};
ghost use Rattle.par1_read.specs.Reading.{read_of};
ghost use Rattle.amending.specs.Call.{stretch_allowed, change_allowed, change_of};
ghost use Rattle.amending.specs.Plan.{tests_refusal, PartsFit, sized_plan, plan_of};

use crate::finding;
use par1_read::Parts;
use par1_rules::layout;
use refusals::{Refusal, bare, number_of, or_else, test};

// What an amendment changes: where the entry lies in the volume, the sizes of the list and of the new data, where the stretch lies, the
// file's coefficient, and the new length.
#[derive(Clone, Copy)]
pub struct Plan {
    pub entry_at: usize,
    pub list_size: usize,
    pub data_size: u64,
    pub stretch_at: usize,
    pub weight: u8,
    pub total: usize,
}

// A change: the file's number, the place, the old and the new bytes of the stretch.
#[derive(Clone, Copy)]
pub struct Change<'a> {
    pub file: u64,
    pub place: u64,
    pub old: &'a [u8],
    pub new: &'a [u8],
}

// What an amendment of `volume` changes, or the refusal by the first test that holds; the room is not tested.
pub(crate) fn plan_for(volume: &[u8], change: &Change, entry: &[u8]) -> Result<Plan, Refusal>
    ensures { result
        ≡ plan_of rule_of (change_of change.now.file change.now.place change.now.old.now change.now.new.now) entry.now volume.now }
{
    let parts = par1::read(volume)?;
    plan_read(volume, parts, change, entry)
}

// The same, for a volume that is read.
fn plan_read(volume: &[u8], parts: Parts, change: &Change, entry: &[u8]) -> Result<Plan, Refusal>
    requires { read_of volume.now ≡ Ok parts }
    ensures { result
        ≡ plan_of rule_of (change_of change.now.file change.now.place change.now.old.now change.now.new.now) entry.now volume.now }
{
    let list = layout::part(volume, layout::HEADER_LENGTH, parts.list_size as usize);
    let span = finding::entry_of(list, change.file);
    let was = layout::part(list, span.from, span.length);
    let numbered = file_allowed(parts.number, parts.saved, change.file);
    let refusal = change.tests_refusal(numbered, was, entry);
    if refusal.number != 0 {
        return Err(refusal);
    }
    let size = little_endian::read64(entry, entries::FILE_SIZE_AT);
    sized_plan(parts, span.from, change.file, change.place, size)
}

// What an amendment of a volume with these parts changes, where the entry of file `file` starts `from` bytes into the list, and the file has
// `size` bytes now; or 1, where the volume gets too long.
fn sized_plan(parts: Parts, from: usize, file: u64, place: u64, size: u64) -> Result<Plan, Refusal>
    requires { PartsFit parts from file place size }
    ensures { result ≡ sized_plan rule_of parts from file place size }
{
    let list_size = parts.list_size as usize;
    let data_size = parts.data_size.max(size);
    let data_start = layout::HEADER_LENGTH + list_size;
    if refusals::MAX_VOLUME_LENGTH - data_start < data_size as usize {
        return Err(bare(refusals::SIZE));
    }
    Ok(Plan {
        entry_at: layout::HEADER_LENGTH + from,
        list_size,
        data_size,
        stretch_at: data_start + place as usize,
        weight: parity::coefficient_of(parts.code, file as u8, parts.number as u8),
        total: data_start + data_size as usize,
    })
}

// Whether volume `number` of `saved` saved files has file `file`; the index has none.
fn file_allowed(number: u64, saved: u64, file: u64) -> bool
    ensures { result ≡ (leb 1 number && is_file saved file) }
{
    1 <= number && 1 <= file && file <= saved
}

impl Change<'_> {
    // The refusal by the first of the tests 10, 16 to 18 and 21 that holds, with the number 0 where none does: `was` is the file's entry in
    // the volume, and `entry` the new one.
    #[tactic(auto, unfolding(crate::specs::Plan::tests_refusal))]
    fn tests_refusal(&self, numbered: bool, was: &[u8], entry: &[u8]) -> Refusal
        ensures { result
            ≡ tests_refusal numbered self.now.place (length self.now.old.now) (length self.now.new.now) was.now entry.now }
    {
        let changed = test(refusals::STRETCH, self.is_allowed(was, entry), 0);
        let out_of_range = test(refusals::OUT_OF_RANGE, numbered, 0);
        or_else(
            out_of_range,
            or_else(number_of(par1::check_lone(entry)), bare(changed)),
        )
    }

    // Whether the stretch is of one of the two kinds in the file with the entry `was`, and `entry` one that the file may then have.
    #[tactic(auto, unfolding(crate::specs::Call::change_allowed))]
    fn is_allowed(&self, was: &[u8], entry: &[u8]) -> bool
        ensures { result
            ≡ change_allowed self.now.place (length self.now.old.now) (length self.now.new.now) was.now entry.now }
    {
        let size = little_endian::read64(was, entries::FILE_SIZE_AT);
        self.fits(size)
            && lent_bytes::same(layout::name_of(entry), layout::name_of(was))
            && little_endian::read64(entry, entries::STATUS_AT)
                == little_endian::read64(was, entries::STATUS_AT)
            && self.grows_to(size, little_endian::read64(entry, entries::FILE_SIZE_AT))
    }

    // Whether the stretch is of one of the two kinds in a file of `size` bytes.
    fn fits(&self, size: u64) -> bool
        ensures { result ≡ stretch_allowed size self.now.place (length self.now.old.now) (length self.now.new.now) }
    {
        self.is_inside(size) || (self.old.is_empty() && self.place == size)
    }

    // Whether both stretches are equally long and inside a file of `size` bytes.
    fn is_inside(&self, size: u64) -> bool
        ensures { result ≡ (eqb (length self.now.old.now) (length self.now.new.now) && leb (self.now.place + length self.now.old.now) size) }
    {
        let old = self.old.len() as u64;
        let new = self.new.len() as u64;
        old == new && old <= size && self.place <= size - old
    }

    // Whether a file of `size` bytes has `grown` bytes after the new bytes took the place of the old.
    fn grows_to(&self, size: u64, grown: u64) -> bool
        ensures { result ≡ eqb grown (size + (length self.now.new.now - length self.now.old.now)) }
    {
        let more = self.new.len().saturating_sub(self.old.len()) as u64;
        size <= grown && grown - size == more
    }
}
