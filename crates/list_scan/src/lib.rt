// The list of a Par 1.0 file, walked as its bytes come in (document 02, 2026-03).
#![tactic(auto)]

ghost use Rattle.std.specs.Prelude.{◌≡◌, ◌+◌, ◌*◌, ◌%◌, ◌^◌, ◌<◌, ◌≤◌, true, ◌⊎◌, length};
ghost use Rattle.entries.specs.Entry.{status_of, file_size_of, md5_of, units_of};
ghost use Rattle.md5_digest.specs.Running.{finished};
ghost use Rattle.par1_rules.specs.Hashes.{hash_entry};
ghost use Rattle.list_scan.specs.Name.{name_start, name_unit, name_units, name_ended};
ghost use Rattle.list_scan.specs.Scan.{is_whole, scanned, scan_start};
ghost use Rattle.list_scan.specs.Run.{IsRun};
ghost use Rattle.list_scan.specs.Found.{fault_at, found_of};
ghost use Rattle.list_scan.specs.Room.{sum_fits, has_room, pushed};

use entries::{Fault, Totals};
use md5_digest::Md5;
use par1_rules::{hashes, layout};
use refusals::Refusal;

// How long an entry with the name ".." is; a longer one may have a name of dots alone.
const MAX_DOTS_SIZE: u64 = (entries::NAME_AT + entries::MAX_DOTS) as u64;

// What is known of the units of a name that came: whether each is allowed, and whether each is a dot.
#[derive(Clone, Copy)]
pub struct NameSoFar {
    pub allowed: bool,
    pub dots: bool,
}

impl NameSoFar {
    // What is known before any unit.
    fn start() -> Self
        ensures { result ≡ name_start }
    {
        NameSoFar {
            allowed: true,
            dots: true,
        }
    }

    // What is known with a run of whole units too.
    #[tactic(auto, unfolding(crate::specs::Name::name_units))]
    fn with_units(self, units: &[u8]) -> Self
        ensures { result ≡ name_units self (units_of units.now) }
    {
        NameSoFar {
            allowed: self.allowed && entries::units_allowed(units),
            dots: self.dots && entries::only_dots(units),
        }
    }

    // What is known with a unit too, of which `low` came before.
    #[tactic(auto, unfolding(crate::specs::Name::name_unit))]
    fn with_unit(self, low: u8, high: u8) -> Self
        ensures { result ≡ name_unit self (low + 256 * high) }
    {
        let unit = u16::from_le_bytes([low, high]);
        NameSoFar {
            allowed: self.allowed && entries::unit_allowed(unit),
            dots: self.dots && entries::is_dot(unit),
        }
    }

    // Whether the name of an entry of `size` bytes is allowed, where all of it came.
    #[tactic(auto, unfolding(crate::specs::Name::name_ended))]
    fn ended(self, size: u64) -> bool
        ensures { result ≡ name_ended self size }
    {
        self.allowed && !(self.dots && size <= MAX_DOTS_SIZE)
    }
}

// A scan of a list: the first bytes of the entry at hand; how many of its bytes came; the last of them; what is known of its name so far; the
// totals of the entries before it; and the running hash over the saved ones.
#[derive(Clone, Copy)]
pub struct Scan {
    pub head: [u8; 56],
    pub at: u64,
    pub low: u8,
    pub named: NameSoFar,
    pub totals: Totals,
    pub hash: Md5,
}

// The scan before any byte.
pub fn start() -> Scan
    ensures { result ≡ scan_start }
{
    Scan {
        head: [0u8; 56],
        at: 0,
        low: 0,
        named: NameSoFar::start(),
        totals: Totals::default(),
        hash: Md5::new(),
    }
}

// The scan after the bytes too; where its counts have no room for so many, as it is.
pub fn push(scan: Scan, bytes: &[u8]) -> Scan
    ensures { result ≡ pushed scan bytes.now }
{
    if !has_room(scan, bytes.len() as u64) {
        return scan;
    }
    after(scan, bytes)
}

// What the scan found, at the end of the list.
pub fn found(scan: Scan) -> Result<Totals, Refusal>
    ensures { result ≡ found_of scan }
{
    if scan.at == 0 {
        return Ok(scan.totals);
    }
    let fault = fault_at(&scan.head, scan.at);
    Err(fault.at(scan.totals.entries.wrapping_add(1)))
}

// The set hash of the entries that came.
pub fn set_hash(scan: Scan) -> [u8; 16]
    ensures { result ≡ finished scan.hash }
{
    scan.hash.finish()
}

// Whether the counts of the scan have room for so many bytes more.
#[tactic(auto, unfolding(crate::specs::Room::has_room))]
fn has_room(scan: Scan, more: u64) -> bool
    ensures { result ≡ has_room scan more }
{
    sum_fits(scan.at, more)
        && sum_fits(scan.totals.entries, more)
        && sum_fits(scan.totals.saved, more)
}

// Whether 64 bits hold the sum of two counts.
#[tactic(auto, unfolding(crate::specs::Room::sum_fits))]
fn sum_fits(count: u64, more: u64) -> bool
    ensures { result ≡ sum_fits count more }
{
    count <= u64::MAX - more
}

// The scan after the bytes too, run by run.
fn after(mut scan: Scan, bytes: &[u8]) -> Scan
    requires { has_room scan (length bytes.now) ≡ true }
    ensures { result ≡ scanned scan bytes.now }
{
    let mut i: usize = 0;
    while i < bytes.len() {
        let rest = &bytes[i..];
        let run = next_run(&scan, rest);
        let n = run.length;
        let taken = &rest[..n];
        i += n;
        let at = scan.at as usize;
        let head = &mut scan.head;
        little_endian::put(head, at, taken);
        scan.at += n as u64;
        scan.named = run.named;
        if is_whole(&scan) {
            let status = entries::status_of(&scan.head);
            let size = entries::file_size_of(&scan.head);
            scan.totals.add(status, size);
            let hash = scan.hash;
            scan.hash = hashed(hash, &scan.head);
            scan.at = 0;
            scan.low = 0;
            scan.named = NameSoFar::start();
        } else {
            scan.low = taken[n - 1];
        }
    }
    scan
}

// A run: how many bytes of an entry are taken at once, and what is known of its name with them.
#[derive(Clone, Copy)]
struct Run {
    length: usize,
    named: NameSoFar,
}

// The run at the front of `rest`: what there is of the entry's first bytes; or of its name, whole units up to its end; or a byte where a unit is cut.
fn next_run(scan: &Scan, rest: &[u8]) -> Run
    requires { (0 < length rest.now) × (length scan.now.head ≡ 56) }
    ensures { IsRun scan.now.head scan.now.at scan.now.low scan.now.named rest.now result }
{
    let at = scan.at;
    let named = scan.named;
    if at < entries::NAME_AT as u64 {
        return Run {
            length: (entries::NAME_AT - at as usize).min(rest.len()),
            named,
        };
    }
    if at % 2 == 1 {
        return Run {
            length: 1,
            named: named.with_unit(scan.low, rest[0]),
        };
    }
    if rest.len() == 1 {
        return Run { length: 1, named };
    }
    let length = units_to_end(little_endian::read64(&scan.head, 0), at, rest.len());
    Run {
        length,
        named: named.with_units(&rest[..length]),
    }
}

// How many of `left` bytes from `at` on are whole units up to the end of an entry of `size` bytes; all that are whole where that is past. No entry
// of an odd size ends.
fn units_to_end(size: u64, at: u64, left: usize) -> usize
    requires { 1 < left }
    ensures { (0 < result) × (result ≤ left) × (result % 2 ≡ 0) × ((size ≤ at) ⊎ (at + result ≤ size + 1)) }
{
    let whole = left - left % 2;
    if size <= at {
        return whole;
    }
    let to_end = size - at;
    if whole as u64 <= to_end {
        return whole;
    }
    (to_end + to_end % 2) as usize
}

// The running hash with an entry more.
fn hashed(hash: Md5, head: &[u8; 56]) -> Md5
    ensures { result ≡ hash_entry hash (status_of head.now) (md5_of head.now) }
{
    hashes::with_entry(hash, entries::status_of(head), layout::md5_of(head))
}

// Whether the entry at hand ends with the bytes that came, and keeps every rule.
#[tactic(auto, unfolding(crate::specs::Scan::is_whole))]
fn is_whole(scan: &Scan) -> bool
    ensures { result ≡ is_whole scan.now.head scan.now.at scan.now.named }
{
    let named = scan.named;
    little_endian::read64(&scan.head, 0) == scan.at
        && entries::entry_size_allowed(scan.at, scan.at as usize)
        && entries::file_size_of(&scan.head) <= refusals::MAX_FILE_SIZE
        && named.ended(scan.at)
}

// The rule that an entry breaks of which the list has `at` bytes.
fn fault_at(head: &[u8; 56], at: u64) -> Fault
    ensures { result ≡ fault_at head.now at }
{
    if !entries::entry_size_allowed(little_endian::read64(head, 0), at as usize) {
        return Fault::Size;
    }
    if entries::file_size_of(head) > refusals::MAX_FILE_SIZE {
        return Fault::FileSize;
    }
    Fault::Name
}
