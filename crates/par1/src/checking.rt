// Checking contents against the entry of their file (document 01, "What comes back").
ghost use Rattle.std.specs.Prelude.{◌≡◌};
ghost use Rattle.par1.specs.Checking.{lone_refusal, is_described, check_of};
ghost use Rattle.refusals.specs.Tests.{told};

use entries::Fault;
use par1_rules::{hashes, layout};
use refusals::{Refusal, refuse_unless};

// Whether `contents` are those of the file that `entry` describes.
#[tactic(auto, unfolding(crate::specs::Checking::check_of))]
pub fn check(entry: &[u8], contents: &[u8]) -> Result<(), Refusal>
    ensures { result ≡ told (check_of entry.now contents.now).number }
{
    check_lone(entry)?;
    refuse_unless(is_described(entry, contents), refusals::DIFFERENT)
}

// Whether `contents` have the length and the hashes that `entry` tells.
#[tactic(auto, unfolding(crate::specs::Checking::is_described))]
fn is_described(entry: &[u8], contents: &[u8]) -> bool
    ensures { result ≡ is_described entry.now contents.now }
{
    let first = layout::part(entry, entries::MD5_16K_AT, layout::HASH_LENGTH);
    entries::file_size_of(entry) == contents.len() as u64
        && hashes::matches(layout::md5_of(entry), contents)
        && hashes::matches(first, hashes::first_part(contents))
}

// Whether an entry that stands alone keeps the rules; it fills its slice.
#[tactic(auto, unfolding(crate::specs::Checking::lone_refusal))]
pub fn check_lone(entry: &[u8]) -> Result<(), Refusal>
    ensures { result ≡ told (lone_refusal entry.now) }
{
    let size = little_endian::read64(entry, 0);
    refuse_unless(size == entry.len() as u64, Fault::Size.number())?;
    match entries::first(entry) {
        Ok(Some(_)) => Ok(()),
        Ok(None) => Err(Fault::Size.at(0)),
        Err(fault) => Err(fault.at(0)),
    }
}
