// What of a set of files and parity volumes is present, and which missing files come back (document 01, "The sheet"; document 02, 2026-10,
// 2026-13).
#![tactic(auto)]

ghost use Rattle.std.specs.Prelude.{◌≡◌};
ghost use Rattle.inventory.specs.Model.{add_file, remove_file, add_volume, remove_volume, quarantine, release};
ghost use Rattle.inventory.specs.Steps.{if_inventory, zeros, outcome, refusal, or_refused, handed_back, refused_opening};
ghost use Rattle.inventory.specs.Steps.{open_step, change_step, count_reply, count_step, change_number};

mod query;
mod ranges;
mod recoverable;

use codes::Code;
use number_sets::{has, insert, one_to, remove, size};
use ranges::{is_inventory, is_volume};
pub use recovery::Answer;
use refusals::{ALREADY, MAX_FILE_SIZE, MAX_FILES, OTHER_CODE, OUT_OF_RANGE, QUARANTINED, SIZE};

// The number of files, and four sets of numbers, one bit each: the files present, the volumes present, the files of size 1 or
// more, and the volumes in quarantine, which are not present. Number k is bit k mod 64 of word k div 64. Last the code of the volumes.
#[derive(Clone, Copy)]
pub struct Inventory {
    pub n: u64,
    pub files: [u64; 4],
    pub volumes: [u64; 4],
    pub nonempty: [u64; 4],
    pub quarantined: [u64; 4],
    pub code: Code,
}

// A refusal of a call that opens or changes an inventory: its number, and the inventory that is handed back: of a change the one that it was
// given, as it came; of an opening zeros, which every call refuses with 10.
#[derive(Clone, Copy)]
pub struct Refused {
    pub number: u32,
    pub inventory: Inventory,
}

// How many files and how many volumes are present, and how many volumes are in quarantine.
#[derive(Clone, Copy, Debug, PartialEq, Eq)]
pub struct Counts {
    pub files: u32,
    pub volumes: u32,
    pub quarantined: u32,
}

// Every call but `open` refuses with 10, first of all, an inventory that no calls give. A change takes the inventory by value and hands back the
// next one or, with a refusal, that one as it came; document 01 has it so (docs/DECISIONS.md, "Forms that document 01 names").
impl Inventory {
    // An inventory of n files of these sizes, nothing present, for volumes of this code: 10 unless n is 1 to 254 and there are n
    // sizes, then 1 for a size above the limit.
    pub fn open(code: Code, n: u64, sizes: &[u64]) -> Result<Inventory, Refused>
        ensures { result ≡ handed_back (open_step code n sizes.now) }
    {
        if !one_to(MAX_FILES, n) || sizes.len() as u64 != n {
            return Err(refused_opening(OUT_OF_RANGE));
        }
        let mut nonempty = [0u64; 4];
        for (k, size) in sizes.iter().enumerate() {
            if *size > MAX_FILE_SIZE {
                return Err(refused_opening(SIZE));
            }
            if *size > 0 {
                // through a name of its own: the borrow checker lays no call's result straight in a variable that is an array
                let more = insert(nonempty, k as u64 + 1);
                nonempty = more;
            }
        }
        Ok(Inventory {
            n,
            files: [0u64; 4],
            volumes: [0u64; 4],
            nonempty,
            quarantined: [0u64; 4],
            code,
        })
    }

    // The inventory with a file present: 10 for a number out of range, 11 for one that is present.
    pub fn add_file(mut self, file: u64) -> Result<Inventory, Refused>
        ensures { result ≡ handed_back (change_step add_file self file) }
    {
        self.permitted(one_to(self.n, file), false, false, has(self.files, file))?;
        self.files = insert(self.files, file);
        Ok(self)
    }

    // The inventory with a file missing: 10 for a number out of range, 11 for one that is missing.
    pub fn remove_file(mut self, file: u64) -> Result<Inventory, Refused>
        ensures { result ≡ handed_back (change_step remove_file self file) }
    {
        self.permitted(one_to(self.n, file), false, false, !has(self.files, file))?;
        self.files = remove(self.files, file);
        Ok(self)
    }

    // The inventory with a volume of this code present: 10 for a number out of range, 29 for the other code, 27 for one in quarantine,
    // 11 for one that is present.
    pub fn add_volume(mut self, code: Code, volume: u64) -> Result<Inventory, Refused>
        ensures { result ≡ handed_back (change_step (add_volume code) self volume) }
    {
        let ranged = is_volume(self.n, volume);
        let other = code != self.code;
        let aside = has(self.quarantined, volume);
        self.permitted(ranged, other, aside, has(self.volumes, volume))?;
        self.volumes = insert(self.volumes, volume);
        Ok(self)
    }

    // The inventory with a volume missing, neither present nor in quarantine: 10 for a number out of range, 11 for one that is neither.
    pub fn remove_volume(mut self, volume: u64) -> Result<Inventory, Refused>
        ensures { result ≡ handed_back (change_step remove_volume self volume) }
    {
        let held = has(self.volumes, volume) || has(self.quarantined, volume);
        self.permitted(is_volume(self.n, volume), false, false, !held)?;
        self.volumes = remove(self.volumes, volume);
        self.quarantined = remove(self.quarantined, volume);
        Ok(self)
    }

    // The inventory with a volume in quarantine, no longer present: 10 for a number out of range, 11 for one that is not present.
    pub fn quarantine(mut self, volume: u64) -> Result<Inventory, Refused>
        ensures { result ≡ handed_back (change_step quarantine self volume) }
    {
        let ranged = is_volume(self.n, volume);
        self.permitted(ranged, false, false, !has(self.volumes, volume))?;
        self.volumes = remove(self.volumes, volume);
        self.quarantined = insert(self.quarantined, volume);
        Ok(self)
    }

    // The inventory with a volume out of quarantine, present again: 10 for a number out of range, 11 for one that is not in quarantine.
    pub fn release(mut self, volume: u64) -> Result<Inventory, Refused>
        ensures { result ≡ handed_back (change_step release self volume) }
    {
        let ranged = is_volume(self.n, volume);
        self.permitted(ranged, false, false, !has(self.quarantined, volume))?;
        self.volumes = insert(self.volumes, volume);
        self.quarantined = remove(self.quarantined, volume);
        Ok(self)
    }

    // How many files and volumes are present, and how many volumes are in quarantine.
    pub fn count(self) -> Result<Counts, u32>
        ensures { count_reply result ≡ count_step self }
    {
        if !is_inventory(self) {
            return Err(OUT_OF_RANGE);
        }
        Ok(Counts {
            files: size(self.files),
            volumes: size(self.volumes),
            quarantined: size(self.quarantined),
        })
    }

    // Whether a change may be: 10, then 29 where a volume of the other code is to be added, 27 where one in quarantine is, then 11 where there
    // is nothing to do; the refusal has the inventory as it came.
    fn permitted(
        self,
        in_range: bool,
        other: bool,
        aside: bool,
        already: bool,
    ) -> Result<(), Refused>
        ensures { result ≡ or_refused tt (outcome self (if_inventory self (change_number in_range other aside already))) }
    {
        if !is_inventory(self) || !in_range {
            return Err(self.refused(OUT_OF_RANGE));
        }
        if other {
            return Err(self.refused(OTHER_CODE));
        }
        if aside {
            return Err(self.refused(QUARANTINED));
        }
        if already {
            Err(self.refused(ALREADY))
        } else {
            Ok(())
        }
    }

    // A refusal with this inventory as it came.
    fn refused(self, number: u32) -> Refused
        ensures { result ≡ refusal (outcome self number) }
    {
        Refused {
            number,
            inventory: self,
        }
    }
}

// The inventory of zeros, which every call refuses with 10: of bytes that are no inventory, and of a refused opening.
pub fn zeros() -> Inventory
    ensures { result ≡ zeros }
{
    Inventory {
        n: 0,
        files: [0u64; 4],
        volumes: [0u64; 4],
        nonempty: [0u64; 4],
        quarantined: [0u64; 4],
        code: Code::Powers,
    }
}

// A refused opening.
pub fn refused_opening(number: u32) -> Refused
    ensures { result ≡ refusal (refused_opening number) }
{
    Refused {
        number,
        inventory: zeros(),
    }
}
