// Rows put between others and taken out, in place. By loops: `copy_within` wants `memmove` of the C library, and the library wants `memcpy` and
// `memset` only (include/par1.h).
ghost use Rattle.std.specs.Prelude.{◌≡◌, ◌+◌, ◌-◌, ◌≤◌, length, take, drop};
ghost use Rattle.std.proofs.lemmas.List.Edits.{sets};
ghost use Rattle.catalog.specs.Plan.{spread, closed};

use crate::ROW_LENGTH;
use crate::planning::Place;

impl Place {
    // Puts `row` at its place; the rows from there on move up.
    pub(crate) fn insert_row(self, bytes: &mut [u8], row: &[u8])
        requires { (self.at ≤ self.to) × (self.to + 28 ≤ length bytes.old) × (length row.now ≡ 28) }
        ensures { bytes.new ≡ spread self.at self.to row.now bytes.old }
    {
        move_up(bytes, self.at, self.to);
        lent_bytes::put(bytes, self.at, row);
    }

    // Takes the row at its place out; the rows after it move down.
    pub(crate) fn remove_row(self, bytes: &mut [u8])
        requires { (self.at + 28 ≤ self.to) × (self.to ≤ length bytes.old) }
        ensures { bytes.new ≡ closed self.at self.to bytes.old }
    {
        for i in self.at..self.to - ROW_LENGTH {
            bytes[i] = bytes[i + ROW_LENGTH];
        }
    }
}

// Moves the bytes from `at` to `to` up by a row.
fn move_up(bytes: &mut [u8], at: usize, to: usize)
    requires { (at ≤ to) × (to + 28 ≤ length bytes.old) }
    ensures { bytes.new ≡ sets bytes.old (at + 28) (take (to - at) (drop at bytes.old)) }
{
    for i in (at..to).rev() {
        bytes[i + ROW_LENGTH] = bytes[i];
    }
}
