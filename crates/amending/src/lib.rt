// Volumes kept current while their files change (document 02, 2026-05).
#![tactic(auto)]

ghost use Rattle.std.specs.Prelude.{◌≡◌};
ghost use Rattle.parity.specs.Coefficient.{rule_of};
ghost use Rattle.amending.specs.Call.{change_of, amend_of};

mod finding;
mod planning;
mod writing;

use planning::Change;
use refusals::{Refusal, bare};

// Amends the volume in the first `length` bytes of `volume`: in file `file` the bytes `old` at `place` became `new`, and its entry is now
// `entry`. The answer is the volume's new length. The work on the data is that on the stretch; but the volume is read first, and its control
// hash made new at the end, over all its bytes.
pub fn amend(
    volume: &mut [u8],
    length: u64,
    file: u64,
    place: u64,
    old: &[u8],
    new: &[u8],
    entry: &[u8],
) -> Result<usize, Refusal>
    ensures { (result, volume.new)
        ≡ amend_of rule_of length (change_of file place old.now new.now) entry.now volume.old }
{
    if (volume.len() as u64) < length {
        return Err(bare(refusals::NO_ROOM));
    }
    let length = length as usize;
    let change = Change {
        file,
        place,
        old,
        new,
    };
    let plan = planning::plan_for(&volume[..length], &change, entry)?;
    if volume.len() < plan.total {
        return Err(bare(refusals::NO_ROOM));
    }
    plan.patch(volume, length, &change, entry);
    Ok(plan.total)
}
