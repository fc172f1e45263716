// The rules of a Par 1.0 file (document 01, "Sizes", "Byte layout", "What comes back").
ghost use Rattle.std.specs.Prelude.{◌≡◌};
ghost use Rattle.par1_rules.specs.Layout.{version_for};
ghost use Rattle.par1_rules.specs.Rules.{length_allowed, version_allowed, code_in, layout_allowed, number_allowed, data_allowed};

use crate::layout;
use codes::Code;
use refusals::{MAX_FILES, MAX_VOLUME_LENGTH};

// Whether a file may have `length` bytes.
#[tactic(auto, unfolding(crate::specs::Rules::length_allowed))]
pub fn length_allowed(length: usize) -> bool
    ensures { result ≡ length_allowed length }
{
    layout::HEADER_LENGTH <= length && length <= MAX_VOLUME_LENGTH
}

// Whether files of this version are read.
#[tactic(auto, unfolding(crate::specs::Rules::version_allowed))]
pub fn version_allowed(version: u32) -> bool
    ensures { result ≡ version_allowed version }
{
    version == layout::POWERS_VERSION || version == layout::CAUCHY_VERSION
}

// The version of the files of a code.
pub fn version_of(code: Code) -> u32
    ensures { result ≡ version_for code }
{
    match code {
        Code::Powers => layout::POWERS_VERSION,
        Code::Cauchy => layout::CAUCHY_VERSION,
    }
}

// The code of the files of a version that is read.
#[tactic(auto, unfolding(crate::specs::Rules::code_in))]
pub fn code_in(version: u32) -> Code
    ensures { result ≡ code_in version }
{
    if version == layout::POWERS_VERSION {
        Code::Powers
    } else {
        Code::Cauchy
    }
}

// Whether list and data lie where they must in a file of `length` bytes that begins with `head`.
#[tactic(auto, unfolding(crate::specs::Rules::layout_allowed))]
pub fn layout_allowed(head: &[u8], length: usize) -> bool
    ensures { result ≡ layout_allowed head.now length }
{
    let list_size = little_endian::read64(head, layout::LIST_SIZE_AT);
    let data_start = little_endian::read64(head, layout::DATA_START_AT);
    let data_size = little_endian::read64(head, layout::DATA_SIZE_AT);
    little_endian::read64(head, layout::LIST_START_AT) == layout::LIST_START
        && layout::LIST_START.checked_add(list_size) == Some(data_start)
        && data_start.checked_add(data_size) == Some(length as u64)
}

// Whether volume `number` may have `saved` saved files; 0 is the index.
#[tactic(auto, unfolding(crate::specs::Rules::number_allowed))]
pub fn number_allowed(number: u64, saved: u64) -> bool
    ensures { result ≡ number_allowed number saved }
{
    saved <= MAX_FILES && (number == 0 || (saved != 0 && number <= 255 - saved))
}

// Whether volume `number` may have `size` bytes of data, where `greatest` is the greatest size of a saved file; 0 is the index.
#[tactic(auto, unfolding(crate::specs::Rules::data_allowed))]
pub fn data_allowed(number: u64, greatest: u64, size: u64) -> bool
    ensures { result ≡ data_allowed number greatest size }
{
    if number == 0 {
        size % 2 == 0
    } else {
        size == greatest
    }
}
