// The entries of two lists, side by side.
ghost use Rattle.entries.specs.Walk.{entries_of};
ghost use Rattle.text.specs.Writer.{Puts};
ghost use Rattle.comparing.specs.Lines.{text_of};
ghost use Rattle.comparing.specs.Differences.{entry_lines};

use crate::{fields, lines};
use text::Writer;

// The lines on the entries of the lists `one` and `two`: on the fields of those at one place, and `all` where a side lacks the entry. The second
// list goes by `next`, so that its rest is left where the first is over: a `zip` ends with the shorter list.
pub(crate) fn put_entries(writer: &mut Writer, one: &[u8], two: &[u8])
    ensures { Puts writer.old writer.new (text_of (entry_lines 1 (entries_of one.now).pieces (entries_of two.now).pieces)) }
{
    let mut twos = entries::of(two);
    let mut place: u64 = 1;
    for a in entries::of(one) {
        match twos.next() {
            Some(b) => fields::put_fields(writer, place, a, b),
            None => lines::put_entry(writer, place, b"all"),
        }
        place += 1;
    }
    for _ in twos {
        lines::put_entry(writer, place, b"all");
        place += 1;
    }
}
