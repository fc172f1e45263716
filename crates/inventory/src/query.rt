// Whether a missing file comes back, and by which weights (document 01, "The sheet": ask).
ghost use Rattle.std.specs.Prelude.{◌≡◌, true};
ghost use Rattle.parity.specs.Coefficient.{rule_of};
ghost use Rattle.inventory.specs.Query.{Queried};
ghost use Rattle.inventory.specs.Steps.{is_inventory};

use crate::Inventory;
use crate::ranges::is_inventory;
use number_sets::one_to;
use recovery::{Answer, Holdings};
use refusals::OUT_OF_RANGE;

impl Inventory {
    // What is known of a file, tested in the order 10, 13, 12, 14. Where it is recoverable, its weights become the first 255 lent bytes.
    // The matrix of its elimination takes 65,536 bytes of stack.
    pub fn query(self, file: u64, out: &mut [u8]) -> Answer
        ensures { Queried rule_of self file out.old result out.new }
    {
        if !is_inventory(self) || !one_to(self.n, file) {
            return Answer::Refused(OUT_OF_RANGE);
        }
        self.holdings().query((file - 1) as u8, out)
    }

    // What is present, of at most 254 files.
    pub(crate) fn holdings(self) -> Holdings
        requires { is_inventory self ≡ true }
        ensures { result ≡ record { code = self.code; n = self.n; files = self.files; volumes = self.volumes; nonempty = self.nonempty } }
    {
        let Inventory {
            n,
            files,
            volumes,
            nonempty,
            code,
            ..
        } = self;
        Holdings {
            code,
            n: n as u8,
            files,
            volumes,
            nonempty,
        }
    }
}
