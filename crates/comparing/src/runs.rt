// The runs of data bytes that differ.
ghost use Rattle.text.specs.Writer.{Puts};
ghost use Rattle.comparing.specs.Lines.{text_of};
ghost use Rattle.comparing.specs.Runs.{run_lines};

use crate::{lines, scan};
use text::Writer;

// The lines on the runs of places at which `a` and `b` differ. By a place: a run begins where the search after the last one ends.
pub(crate) fn put_runs(writer: &mut Writer, a: &[u8], b: &[u8])
    ensures { Puts writer.old writer.new (text_of (run_lines a.now b.now)) }
{
    let n = a.len().max(b.len());
    let mut from: usize = 0;
    loop {
        let first = scan::difference_from(a, b, from);
        if n <= first {
            return;
        }
        let end = scan::agreement_from(a, b, first);
        lines::put_run(writer, first as u64, (end - 1) as u64);
        from = end;
    }
}
