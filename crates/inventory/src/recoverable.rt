// Which missing files are recoverable now (document 02, 2026-11), all of them by one elimination.
ghost use Rattle.std.specs.Prelude.{◌≡◌};
ghost use Rattle.parity.specs.Coefficient.{rule_of};
ghost use Rattle.inventory.specs.Steps.{or_refusal};
ghost use Rattle.inventory.specs.RecoverableFiles.{RecoverableFiles, RecoverableSet};

use crate::Inventory;
use crate::ranges::is_inventory;
use refusals::OUT_OF_RANGE;

impl Inventory {
    // The missing files that are recoverable, empty ones too; 10 for an inventory that no calls give.
    // The matrix of the elimination takes 65,536 bytes of stack.
    pub fn recoverable_files(self) -> Result<[u64; 4], u32>
        ensures { (r : RecoverableFiles) × RecoverableSet rule_of self r × (result ≡ or_refusal r.files r.number) }
    {
        if !is_inventory(self) {
            return Err(OUT_OF_RANGE);
        }
        Ok(self.holdings().recoverable_files())
    }
}
