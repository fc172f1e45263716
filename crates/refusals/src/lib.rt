// Refusals: the limits (document 01, "Sizes"; document 02, 2026-08), the numbers of the table of refusals (document 01, "What comes back", and
// document 02 from 16 on), a refusal with its place, and tests one after another.
#![tactic(auto)]

ghost use Rattle.std.specs.Prelude.{◌≡◌, true, false, MatchResult};
ghost use Rattle.refusals.specs.Tests.{bare, test, number_of, or_else};

// The greatest size of a listed file, in bytes.
pub const MAX_FILE_SIZE: u64 = 16777216;

// The greatest length of a volume or index file, in bytes.
pub const MAX_VOLUME_LENGTH: usize = 33554432;

// The greatest number of saved files.
pub const MAX_FILES: u64 = 254;

// The greatest number of entries in a catalog.
pub const MAX_ENTRIES: u64 = 1024;

// The greatest length of what the programs take, in bytes: a file to be listed, a log to be replayed.
pub const MAX_LISTED_LENGTH: usize = 65536;

// The length of a volume or index file, or the size of a listed file, is outside its limits.
pub const SIZE: u32 = 1;

// The first eight bytes differ.
pub const SIGNATURE: u32 = 2;

// The version is not one that is read.
pub const VERSION: u32 = 3;

// List or data does not lie where it must.
pub const LAYOUT: u32 = 4;

// The control hash differs.
pub const CONTROL_HASH: u32 = 5;

// Too many saved files, or the volume number does not go with them.
pub const VOLUME_NUMBER: u32 = 7;

// The set hash differs.
pub const SET_HASH: u32 = 8;

// The size of the data breaks its rule.
pub const DATA_SIZE: u32 = 9;

// A number is outside its range or that of no code, no calls give the inventory, or 0 has no inverse.
pub const OUT_OF_RANGE: u32 = 10;

// What is added is present already, or what is removed or set aside is not present, or what is taken back is not set aside.
pub const ALREADY: u32 = 11;

// What is present does not determine the file.
pub const UNDETERMINED: u32 = 12;

// The file is present.
pub const PRESENT: u32 = 13;

// The lent bytes are too few for the result.
pub const NO_ROOM: u32 = 14;

// Length, MD5 or 16k MD5 differ from the entry.
pub const DIFFERENT: u32 = 15;

// The size of an entry is odd, below 58, or past the end of its list or its slice; or a lone entry does not fill its slice.
pub const ENTRY_SIZE: u32 = 16;

// The file size of an entry is above its limit; or so are the contents or the status of an entry to be written.
pub const FILE_SIZE: u32 = 17;

// The name of an entry is not allowed: a unit of it is not, or it is "." or ".."; or that of an entry to be written is empty or odd.
pub const NAME: u32 = 18;

// The number of entries differs.
pub const ENTRY_COUNT: u32 = 19;

// A job is over, or no run of pushes gives its counts.
pub const JOB: u32 = 20;

// The stretch of an amendment is of neither kind, or the new entry has another name or status, or a size that the stretch does not give.
pub const STRETCH: u32 = 21;

// A line of md5sum text is of another shape, or unended.
pub const LINE: u32 = 22;

// A line of md5sum text has a listed name again, with another sum.
pub const SUM: u32 = 23;

// A name does not fit a line of md5sum text.
pub const UNFIT: u32 = 24;

// The list of a volume gives other entry rows than the catalog has.
pub const ROWS: u32 = 25;

// More entries than a catalog takes.
pub const ENTRIES: u32 = 26;

// The volume that is added is in quarantine.
pub const QUARANTINED: u32 = 27;

// A line of a log of arrivals is of another shape, or unended.
pub const EVENT: u32 = 28;

// The volume that is added is of the other code.
pub const OTHER_CODE: u32 = 29;

// No list and volumes give the bytes of a catalog, hashes apart; or they end early.
pub const CATALOG: u32 = 30;

// A refusal: its number, and the place, from 1, of the entry in its list or of the line in its text that it is about; 0 where there is none. The
// number 0 is no refusal.
#[derive(Clone, Copy)]
pub struct Refusal {
    pub number: u32,
    pub place: u64,
}

// The refusal `number` without a place.
pub fn bare(number: u32) -> Refusal
    ensures { result ≡ bare number }
{
    Refusal { number, place: 0 }
}

// The refusal `number` unless `ok` holds; else `later`, which the further tests give. 0 is no refusal.
pub fn test(number: u32, ok: bool, later: u32) -> u32
    ensures { result ≡ test number ok later }
{
    if ok { later } else { number }
}

// Whether a test passed: `Ok` where `ok` holds, else the refusal `number`. With `?` the tests of a call stand line after line, in their order.
pub fn refuse_unless(ok: bool, number: u32) -> Result<(), Refusal>
    ensures { MatchResult result (λ _. ok ≡ true) (λ refusal. (ok ≡ false) × (refusal ≡ bare number)) }
{
    if ok { Ok(()) } else { Err(bare(number)) }
}

// The number of the refusal that tests gave, 0 where they passed.
pub fn number_of(told: Result<(), Refusal>) -> u32
    ensures { result ≡ number_of told }
{
    match told {
        Ok(()) => 0,
        Err(refusal) => refusal.number,
    }
}

// The refusal `first`, which has no place, where it is one, else `second`.
pub fn or_else(first: u32, second: Refusal) -> Refusal
    ensures { result ≡ or_else first second }
{
    if first == 0 {
        return second;
    }
    bare(first)
}
