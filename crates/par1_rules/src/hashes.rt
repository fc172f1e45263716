// The hashes of a Par 1.0 file (document 01, "Byte layout").
ghost use Rattle.std.specs.Prelude.{◌≡◌, take};
ghost use Rattle.entries.specs.Walk.{entries_of};
ghost use Rattle.md5_digest.specs.Digest.{md5};
ghost use Rattle.lent_bytes.specs.Equal.{equal};
ghost use Rattle.par1_rules.specs.Hashes.{set_hash, hash_entry};

use crate::layout;
use md5_digest::Md5;

// How many bytes of a file the second hash of its entry covers.
const FIRST_BYTES: usize = 16384;

// Whether `hash` is the MD5 of `bytes`.
pub fn matches(hash: &[u8], bytes: &[u8]) -> bool
    ensures { result ≡ equal hash.now (md5 bytes.now) }
{
    lent_bytes::same(hash, &md5_digest::digest(bytes))
}

// The part of a file's contents that the second hash of its entry covers.
pub fn first_part(contents: &[u8]) -> &[u8]
    ensures { result.now ≡ take 16384 contents.now }
{
    layout::part(contents, 0, FIRST_BYTES)
}

// The set hash of the entries of `list`.
pub fn of_set(list: &[u8]) -> [u8; 16]
    ensures { result ≡ set_hash (entries_of list.now).pieces }
{
    let mut hash = Md5::new();
    for entry in entries::of(list) {
        hash = with_entry(hash, entries::status_of(entry), layout::md5_of(entry));
    }
    hash.finish()
}

// The running hash after an entry, which counts where it is saved.
pub fn with_entry(hash: Md5, status: u64, md5: &[u8]) -> Md5
    ensures { result ≡ hash_entry hash status md5.now }
{
    if entries::is_saved(status) {
        hash.push(md5)
    } else {
        hash
    }
}
