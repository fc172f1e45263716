// The lines of md5sum text.
ghost use Rattle.std.specs.Prelude.{◌≡◌, ◌≤◌, ◌<◌, length, drop};
ghost use Rattle.md5sum_text.specs.Lines.{is_shaped, shaped_length, lines_of};
ghost use Rattle.md5sum_text.specs.Walks.{shapes_of, Stands, is_other, Found};

use crate::names;
use par1_rules::layout;
use text::line_length;

// The length of a sum in digits.
pub(crate) const SUM_LENGTH: usize = 32;

// Where the name starts in a line.
const LINE_NAME_AT: usize = 34;

// The shortest line: sum, two spaces, one byte of name, byte 10.
const MIN_LINE_LENGTH: usize = 36;

// The lines of the right shape that a text begins with: how many there are, and where they end. An iterator of lines would count them, but not say
// where the last one ends.
#[derive(Clone, Copy)]
pub struct Shapes {
    pub count: u64,
    pub end: usize,
}

// A line of a text: its number, from 0, and where it stands. A search answers with one, since the next search goes on from there.
#[derive(Clone, Copy)]
pub struct Place {
    pub number: u64,
    pub at: usize,
}

// The lines of the right shape that `text` begins with.
pub(crate) fn shaped_lines(text: &[u8]) -> Shapes
    ensures { result ≡ shapes_of text.now }
{
    let mut count: u64 = 0;
    let mut end: usize = 0;
    loop {
        let length = shaped_length(text, end);
        if length == 0 {
            return Shapes { count, end };
        }
        count += 1;
        end += length;
    }
}

// The first line before line `count`, from `start` on, that has the name `name`, in units, and another sum than `sum`; line `count` where there
// is none.
pub(crate) fn seek(text: &[u8], count: u64, start: Place, name: &[u8], sum: &[u8]) -> Place
    requires { (start.number ≤ count) × (count ≤ length (lines_of text.now).pieces) × Stands text.now start }
    ensures { Found text.now name.now sum.now count start result }
{
    let mut number = start.number;
    let mut at = start.at;
    while number < count {
        let length = length_at(text, at);
        if is_other(layout::part(text, at, length), name, sum) {
            return Place { number, at };
        }
        number += 1;
        at += length;
    }
    Place { number, at }
}

// Whether a line has the name `name`, in units, and another sum than `sum`.
fn is_other(line: &[u8], name: &[u8], sum: &[u8]) -> bool
    requires { 36 ≤ length line.now }
    ensures { result ≡ is_other name.now sum.now line.now }
{
    let length = line.len() - (LINE_NAME_AT + 1);
    names::units_are(name, layout::part(line, LINE_NAME_AT, length))
        && !lent_bytes::same(layout::part(line, 0, SUM_LENGTH), sum)
}

// The length of the line at `at`, which is of the right shape: no byte before its name ends it.
fn length_at(text: &[u8], at: usize) -> usize
    requires { 0 < shaped_length (drop at text.now) }
    ensures { result ≡ shaped_length (drop at text.now) }
{
    LINE_NAME_AT + line_length(text, at + LINE_NAME_AT)
}

// The length of the line of the right shape at `at`; 0 where there is none.
fn shaped_length(text: &[u8], at: usize) -> usize
    ensures { result ≡ shaped_length (drop at text.now) }
{
    let length = line_length(text, at);
    if is_shaped(layout::part(text, at, length)) {
        length
    } else {
        0
    }
}

// Whether a line is of the right shape.
#[tactic(auto, unfolding(crate::specs::Lines::is_shaped))]
fn is_shaped(line: &[u8]) -> bool
    ensures { result ≡ is_shaped line.now }
{
    MIN_LINE_LENGTH <= line.len()
        && text::all_hex_digits(layout::part(line, 0, SUM_LENGTH))
        && lent_bytes::same(layout::part(line, SUM_LENGTH, 2), b"  ")
}
