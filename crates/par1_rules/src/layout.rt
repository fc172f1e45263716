// Where the fields of a Par 1.0 header lie (document 01, "Byte layout"), and parts of a file.
ghost use Rattle.std.specs.Prelude.{◌≡◌, take, drop};
ghost use Rattle.entries.specs.Entry.{md5_of, name_of};

// "PAR" and five zero bytes, as a number at 0.
pub const SIGNATURE: u64 = 0x524150;

// The versions of the two codes.
pub const POWERS_VERSION: u32 = 65536;

pub const CAUCHY_VERSION: u32 = 131328;

pub const VERSION_AT: usize = 8;

pub const PROGRAM_AT: usize = 12;

pub const CONTROL_HASH_AT: usize = 16;

pub const SET_HASH_AT: usize = 32;

pub const NUMBER_AT: usize = 48;

pub const COUNT_AT: usize = 56;

pub const LIST_START_AT: usize = 64;

pub const LIST_SIZE_AT: usize = 72;

pub const DATA_START_AT: usize = 80;

pub const DATA_SIZE_AT: usize = 88;

// The list starts after the header.
pub const HEADER_LENGTH: usize = 96;

pub const LIST_START: u64 = 96;

// The length of a hash.
pub const HASH_LENGTH: usize = 16;

// The `count` bytes of `bytes` from `at` on; fewer where they end before.
pub fn part(bytes: &[u8], at: usize, count: usize) -> &[u8]
    ensures { result.now ≡ take count (drop at bytes.now) }
{
    let rest = &bytes[at.min(bytes.len())..];
    &rest[..count.min(rest.len())]
}

// The MD5 of the whole file that an entry describes.
pub fn md5_of(entry: &[u8]) -> &[u8]
    ensures { result.now ≡ md5_of entry.now }
{
    part(entry, entries::MD5_AT, HASH_LENGTH)
}

// The name of an entry, in bytes.
pub fn name_of(entry: &[u8]) -> &[u8]
    ensures { result.now ≡ name_of entry.now }
{
    part(entry, entries::NAME_AT, entry.len())
}
