// The entries of a Par 1.0 list (document 01, "Byte layout"): the first entry of a part of a list, and the walk over a whole one.
#![tactic(auto)]

ghost use Rattle.std.specs.Prelude.{◌≡◌, cond, ◌%◌, ◌≤◌, max, length, drop, ℕ, List};
ghost use Rattle.std.specs.Iterator.{YieldsFirst, YieldsFirstRef, item_count};
ghost use Rattle.entries.specs.Entry.{unit_allowed, is_dot, units_allowed, only_dots, is_dots, name_allowed, units_of};
ghost use Rattle.entries.specs.Entry.{entry_size_allowed, is_saved, saved_count, is_counted, status_of, file_size_of, length_of};
ghost use Rattle.entries.specs.Walk.{fault_number, refusal_at, first_of, entries_of, saturating_add_entry, walk_of};

use refusals::Refusal;
use std::marker::Model;

// The shortest entry: 56 bytes of fields, and a name of one unit.
pub const MIN_ENTRY_SIZE: u64 = 58;

// Where the fields of an entry lie; its own size is at 0, and the name goes to its end.
pub const STATUS_AT: usize = 8;

pub const FILE_SIZE_AT: usize = 16;

pub const MD5_AT: usize = 24;

pub const MD5_16K_AT: usize = 40;

pub const NAME_AT: usize = 56;

// The length of the name "..", in bytes: a longer one may be of dots alone.
pub const MAX_DOTS: usize = 4;

// The rule that an entry breaks: that on its own size, on its file's size, or on its name.
#[derive(Clone, Copy)]
pub enum Fault {
    Size,
    FileSize,
    Name,
}

impl Fault {
    // The number of the refusal for a fault.
    pub fn number(self) -> u32
        ensures { result ≡ fault_number self }
    {
        match self {
            Fault::Size => refusals::ENTRY_SIZE,
            Fault::FileSize => refusals::FILE_SIZE,
            Fault::Name => refusals::NAME,
        }
    }

    // The refusal for a fault of the entry at `place`.
    pub fn at(self, place: u64) -> Refusal
        ensures { result ≡ refusal_at self place }
    {
        Refusal {
            number: self.number(),
            place,
        }
    }
}

// An entry in numbers: its length, its status, and the size of its file.
#[derive(Clone, Copy)]
pub struct Entry {
    pub length: usize,
    pub status: u64,
    pub size: u64,
}

// Of the entries of a list: their number, that of the saved ones, and the greatest size of a file that counts for the data size.
#[derive(Clone, Copy, Default)]
pub struct Totals {
    pub entries: u64,
    pub saved: u64,
    pub greatest: u64,
}

impl Totals {
    // Counts one entry more; a count that has no room for it stays at the greatest number.
    #[tactic(auto, unfolding(crate::specs::Walk::saturating_add_entry))]
    pub fn add(&mut self, status: u64, size: u64)
        ensures { self.new ≡ saturating_add_entry self.old status size }
    {
        self.entries = self.entries.saturating_add(1);
        self.saved = self.saved.saturating_add(saved_count(status));
        self.greatest = greatest_after(self.greatest, status, size);
    }
}

// The first entry of `list`, in numbers, `None` where the list is over, or the rule that the entry breaks. The list goes on after its `length`
// bytes.
pub fn first(list: &[u8]) -> Result<Option<Entry>, Fault>
    ensures { result ≡ first_of list.now }
{
    if list.is_empty() {
        return Ok(None);
    }
    let entry_size = little_endian::read64(list, 0);
    if !entry_size_allowed(entry_size, list.len()) {
        return Err(Fault::Size);
    }
    let length = entry_size as usize;
    let entry = &list[..length];
    let size = file_size_of(entry);
    if size > refusals::MAX_FILE_SIZE {
        return Err(Fault::FileSize);
    }
    if !name_allowed(&entry[NAME_AT..]) {
        return Err(Fault::Name);
    }
    let status = status_of(entry);
    Ok(Some(Entry {
        length,
        status,
        size,
    }))
}

// What stands at the place `from` of `list`, as `first` tells it. Past the end there is nothing.
pub fn at(list: &[u8], from: usize) -> Result<Option<Entry>, Fault>
    ensures { result ≡ first_of (drop from list.now) }
{
    first(&list[from.min(list.len())..])
}

// The length of the entry at the place `from` of `list`, 0 where there is none.
pub fn length_at(list: &[u8], from: usize) -> usize
    ensures { result ≡ length_of (drop from list.now) }
{
    first_length(&list[from.min(list.len())..])
}

// The length of the entry that `list` begins with, 0 where there is none.
fn first_length(list: &[u8]) -> usize
    ensures { result ≡ length_of list.now }
{
    match first(list) {
        Ok(Some(entry)) => entry.length,
        Ok(None) => 0,
        Err(_) => 0,
    }
}

// The entries of a list, one after another, up to its end or the first that breaks a rule.
#[derive(Drop)]
pub struct Entries<'a> {
    rest: &'a [u8],
}

impl<'a> Model for Entries<'a> {
    ghost Value = { List (List ℕ) };

    ghost view = { λ s. (entries_of s.rest.now).pieces };
}

impl<'a> Iterator for Entries<'a> {
    type Item = &'a [u8];

    ghost next_gives = { YieldsFirstRef (λ s. s) };

    ghost remaining = { item_count (λ s. s) };

    fn next(&mut self) -> Option<&'a [u8]> {
        let length = first_length(self.rest);
        if length == 0 {
            return None;
        }
        let (entry, rest) = self.rest.split_at(length);
        self.rest = rest;
        Some(entry)
    }
}

// The entries of `list`.
pub fn of(list: &[u8]) -> Entries<'_>
    ensures { result ≡ (entries_of list.now).pieces }
{
    Entries { rest: list }
}

// The totals of the entries of `list`, or the refusal of the first that breaks a rule, with its place.
pub fn walk(list: &[u8]) -> Result<Totals, Refusal>
    ensures { result ≡ walk_of list.now }
{
    let mut totals = Totals::default();
    let mut rest = list;
    loop {
        match first(rest) {
            Ok(Some(entry)) => {
                totals.add(entry.status, entry.size);
                rest = &rest[entry.length..];
            }
            Ok(None) => return Ok(totals),
            Err(fault) => return Err(fault.at(totals.entries + 1)),
        }
    }
}

// The status of an entry.
pub fn status_of(entry: &[u8]) -> u64
    ensures { result ≡ status_of entry.now }
{
    little_endian::read64(entry, STATUS_AT)
}

// The size of an entry's file.
pub fn file_size_of(entry: &[u8]) -> u64
    ensures { result ≡ file_size_of entry.now }
{
    little_endian::read64(entry, FILE_SIZE_AT)
}

// The 16-bit units of a name, one after another; half a unit at its end is left out.
#[derive(Drop)]
pub struct Units<'a> {
    rest: &'a [u8],
}

impl<'a> Model for Units<'a> {
    ghost Value = { List ℕ };

    ghost view = { λ s. units_of s.rest.now };
}

impl<'a> Iterator for Units<'a> {
    type Item = u16;

    ghost next_gives = { YieldsFirst (λ s. s) };

    ghost remaining = { item_count (λ s. s) };

    fn next(&mut self) -> Option<u16> {
        if self.rest.len() < 2 {
            return None;
        }
        let unit = little_endian::read16(self.rest, 0);
        self.rest = &self.rest[2..];
        Some(unit)
    }
}

// The units of `name`.
pub fn units_of(name: &[u8]) -> Units<'_>
    ensures { result ≡ units_of name.now }
{
    Units { rest: name }
}

// Whether the bytes of a name are allowed: one unit or more, whole units, each of them allowed, and neither "." nor "..".
#[tactic(auto, unfolding(crate::specs::Entry::name_allowed))]
pub fn name_allowed(name: &[u8]) -> bool
    ensures { result ≡ name_allowed name.now }
{
    2 <= name.len() && name.len() % 2 == 0 && units_allowed(name) && !is_dots(name)
}

// Whether an entry with this status is saved in the parity.
pub fn is_saved(status: u64) -> bool
    ensures { result ≡ is_saved status }
{
    status % 2 == 1
}

// How many saved entries an entry with this status is: 1, or 0.
pub fn saved_count(status: u64) -> u64
    ensures { result ≡ saved_count status }
{
    u64::from(is_saved(status))
}

// Whether an entry of `size` bytes may stand at the front of `room` bytes.
#[tactic(auto, unfolding(crate::specs::Entry::entry_size_allowed))]
pub fn entry_size_allowed(size: u64, room: usize) -> bool
    ensures { result ≡ entry_size_allowed size room }
{
    size % 2 == 0 && MIN_ENTRY_SIZE <= size && size <= room as u64
}

// Whether each unit of a name is allowed.
pub fn units_allowed(name: &[u8]) -> bool
    ensures { result ≡ units_allowed (units_of name.now) }
{
    units_of(name).all(|unit| unit_allowed(unit))
}

// Whether each unit of a name is a dot.
pub fn only_dots(name: &[u8]) -> bool
    ensures { result ≡ only_dots (units_of name.now) }
{
    units_of(name).all(|unit| is_dot(unit))
}

// Whether a unit may stand in a name: any but 0, a slash, a colon and a backslash.
#[tactic(auto, unfolding(crate::specs::Entry::unit_allowed))]
pub fn unit_allowed(unit: u16) -> bool
    ensures { result ≡ unit_allowed unit }
{
    !matches!(unit, 0 | 47 | 58 | 92)
}

// Whether a unit is a dot.
pub fn is_dot(unit: u16) -> bool
    ensures { result ≡ is_dot unit }
{
    unit == 46
}

// Whether a name of whole units, one or more, is "." or "..".
fn is_dots(name: &[u8]) -> bool
    requires { (2 ≤ length name.now) × (length name.now % 2 ≡ 0) }
    ensures { result ≡ is_dots (units_of name.now) }
{
    name.len() <= MAX_DOTS && only_dots(name)
}

// The greatest size that counts, with one entry more.
pub fn greatest_after(greatest: u64, status: u64, size: u64) -> u64
    ensures { result ≡ cond (is_counted status) (max greatest size) greatest }
{
    if is_counted(status) {
        greatest.max(size)
    } else {
        greatest
    }
}

// Whether an entry counts for the data size: a saved one does.
fn is_counted(status: u64) -> bool
    ensures { result ≡ is_counted status }
{
    is_saved(status)
}
