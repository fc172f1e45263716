// The lines of a text held against the entries of a list.
ghost use Rattle.std.specs.Prelude.{◌≡◌, [], ◌∷◌, map, ◌≤◌, length};
ghost use Rattle.computed_tests.specs.Lists.{first_below};
ghost use Rattle.entries.specs.Walk.{entries_of};
ghost use Rattle.text.specs.Writer.{Puts};
ghost use Rattle.lent_bytes.specs.Equal.{equal};
ghost use Rattle.md5sum_text.specs.Lines.{lines_of};
ghost use Rattle.md5sum_text.specs.Names.{sum_of};
ghost use Rattle.md5sum_text.specs.Import.{is_again, again_in, text_refusal, answer_for};
ghost use Rattle.md5sum_text.specs.Walks.{shapes_of};

use crate::lines::{Place, Shapes};
use crate::{lines, names};
use par1_rules::layout;
use refusals::{Refusal, bare};
use text::Writer;

// The refusal of the earliest faulty line of `text`, with the number 0 where there is none.
pub(crate) fn refusal(list: &[u8], text: &[u8], shapes: Shapes) -> Refusal
    requires { shapes ≡ shapes_of text.now }
    ensures { result ≡ text_refusal (entries_of list.now).pieces (lines_of text.now) }
{
    let again = again_in(list, text, shapes.count);
    if again < shapes.count {
        return Refusal {
            number: refusals::SUM,
            place: again + 1,
        };
    }
    if shapes.end < text.len() {
        return Refusal {
            number: refusals::LINE,
            place: shapes.count + 1,
        };
    }
    bare(0)
}

// The first line, from 0, that has a listed name again with another sum; `count`, the number of lines, where there is none.
fn again_in(list: &[u8], text: &[u8], count: u64) -> u64
    requires { count ≡ length (lines_of text.now).pieces }
    ensures { result ≡ again_in (entries_of list.now).pieces (lines_of text.now).pieces }
{
    let mut first = count;
    for entry in entries::of(list) {
        first = again_for(entry, text, first);
    }
    first
}

// The first line before line `count` that names an entry again with another sum; `count` where there is none.
fn again_for(entry: &[u8], text: &[u8], count: u64) -> u64
    requires { count ≤ length (lines_of text.now).pieces }
    ensures { result ≡ first_below count (is_again (entry.now ∷ []) (lines_of text.now).pieces) }
{
    let name = layout::name_of(entry);
    if !names::units_fit(name) {
        return count;
    }
    let first = lines::seek(text, count, Place { number: 0, at: 0 }, name, &text[..0]);
    let sum = layout::part(text, first.at, lines::SUM_LENGTH);
    let other = lines::seek(text, count, first, name, sum);
    other.number
}

// A byte for each entry of `list`.
pub(crate) fn put_answers(writer: &mut Writer, list: &[u8], text: &[u8], count: u64)
    requires { count ≡ length (lines_of text.now).pieces }
    ensures { Puts writer.old writer.new (map (answer_for (lines_of text.now).pieces) (entries_of list.now).pieces) }
{
    for entry in entries::of(list) {
        writer.put(answer_for(entry, text, count));
    }
}

// The byte for an entry: 0 where no line names it, 1 where one does with its sum, 2 where one does with another.
fn answer_for(entry: &[u8], text: &[u8], count: u64) -> u8
    requires { count ≡ length (lines_of text.now).pieces }
    ensures { result ≡ answer_for (lines_of text.now).pieces entry.now }
{
    let name = layout::name_of(entry);
    if !names::units_fit(name) {
        return 0;
    }
    let first = lines::seek(text, count, Place { number: 0, at: 0 }, name, &text[..0]);
    if first.number == count {
        return 0;
    }
    if is_sum(layout::part(text, first.at, lines::SUM_LENGTH), entry) {
        1
    } else {
        2
    }
}

// Whether `sum` is the text of the MD5 of an entry's file.
fn is_sum(sum: &[u8], entry: &[u8]) -> bool
    ensures { result ≡ equal sum.now (sum_of entry.now) }
{
    let mut digits = [0u8; lines::SUM_LENGTH];
    let hash = layout::part(entry, entries::MD5_AT, layout::HASH_LENGTH);
    let mut writer = Writer::new(&mut digits);
    writer.put_hex_bytes(hash);
    let length = writer.position();
    lent_bytes::same(sum, layout::part(&digits, 0, length))
}
