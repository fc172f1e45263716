// Which numbers are in range, and which inventories calls give (document 01, "What comes back", number 10; document 02, 2026-10).
ghost use Rattle.std.specs.Prelude.{◌≡◌};
ghost use Rattle.recovery.specs.Recoverable.{is_volume};
ghost use Rattle.inventory.specs.Steps.{is_inventory};

use crate::Inventory;
use number_sets::{apart, one_to, within};
use refusals::MAX_FILES;

// Whether opening and accepted calls could have given this inventory.
pub fn is_inventory(s: Inventory) -> bool
    ensures { result ≡ is_inventory s }
{
    one_to(MAX_FILES, s.n)
        && within(s.n, s.files)
        && within(s.n, s.nonempty)
        && within(255 - s.n, s.volumes)
        && within(255 - s.n, s.quarantined)
        && apart(s.volumes, s.quarantined)
}

// Whether `volume` is the number of a volume of n files: 1 to 255 - n.
pub fn is_volume(n: u64, volume: u64) -> bool
    ensures { result ≡ is_volume n volume }
{
    n <= 255 && one_to(255 - n, volume)
}
