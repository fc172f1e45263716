// The comparison of two index files or volumes, as text into a lent buffer (document 02, 2026-06).
#![tactic(auto)]

ghost use Rattle.std.specs.Prelude.{◌≡◌};
ghost use Rattle.std.proofs.Props.{props};
ghost use Rattle.lent_bytes.specs.Writing.{written};
ghost use Rattle.text.specs.Writer.{Puts};
ghost use Rattle.par1_read.specs.Reading.{read_of};
ghost use Rattle.comparing.specs.Comparing.{comparison_of};

mod fields;
mod lines;
mod lists;
mod runs;
mod scan;

use par1_read::Parts;
use par1_rules::layout::{HEADER_LENGTH, part};
use refusals::Refusal;
use text::{Text, Writer};

// A line for each difference of the files `one` and `two` over the first bytes of `out`, and their length; or 14, and nothing written, where
// they do not fit.
pub fn compare(one: &[u8], two: &[u8], out: &mut [u8]) -> Result<usize, Refusal>
    ensures { (result, out.new) ≡ written (comparison_of one.now two.now) out.old }
{
    let first = par1_read::read(one);
    let second = par1_read::read(two);
    text::written(
        out,
        &Comparison {
            one,
            two,
            first,
            second,
        },
    )
}

// A pair of files and what they read as. Its text is the lines on them.
#[derive(Drop)]
struct Comparison<'a> {
    one: &'a [u8],
    two: &'a [u8],
    first: Result<Parts, Refusal>,
    second: Result<Parts, Refusal>,
    ghost read: { (first ≡ read_of one.now) × (second ≡ read_of two.now) } by { Prim.hlevel props },
}

impl Text for Comparison<'_> {
    ghost text = { λ c. comparison_of c.one.now c.two.now };

    fn put(&self, writer: &mut Writer) {
        put_comparison(writer, self.one, self.two, self.first, self.second)
    }
}

// The lines on two files that read as `first` and `second`.
fn put_comparison(
    writer: &mut Writer,
    one: &[u8],
    two: &[u8],
    first: Result<Parts, Refusal>,
    second: Result<Parts, Refusal>,
)
    requires { (first ≡ read_of one.now) × (second ≡ read_of two.now) }
    ensures { Puts writer.old writer.new (comparison_of one.now two.now) }
{
    let Ok(p) = first else {
        lines::put_refusal(writer, 1, first);
        lines::put_refusal(writer, 2, second);
        return;
    };
    let Ok(q) = second else {
        lines::put_refusal(writer, 2, second);
        return;
    };
    fields::put_header(writer, one, two);
    let list_one = part(one, HEADER_LENGTH, p.list_size as usize);
    let list_two = part(two, HEADER_LENGTH, q.list_size as usize);
    lists::put_entries(writer, list_one, list_two);
    let data_one = part(one, p.data_start as usize, one.len());
    let data_two = part(two, q.data_start as usize, two.len());
    runs::put_runs(writer, data_one, data_two);
}
