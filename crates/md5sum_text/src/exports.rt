// The text of an export.
ghost use Rattle.std.specs.Prelude.{◌≡◌, true};
ghost use Rattle.entries.specs.Entry.{units_of};
ghost use Rattle.entries.specs.Walk.{entries_of};
ghost use Rattle.lent_bytes.specs.Writing.{written};
ghost use Rattle.text.specs.Writer.{Puts};
ghost use Rattle.md5sum_text.specs.Names.{units_fit, is_fitting};
ghost use Rattle.md5sum_text.specs.Export.{line_for, export_text, all_fitting};

use crate::names::units_fit;
use par1_rules::layout;
use par1_rules::layout::name_of;
use refusals::Refusal;
use text::{Text, Writer};

// Whether the name of each entry of `list` fits a line.
pub(crate) fn all_fitting(list: &[u8]) -> bool
    ensures { result ≡ all_fitting (entries_of list.now).pieces }
{
    entries::of(list).all(|entry| units_fit(name_of(entry)))
}

// The lines of the entries of `list`, written where they fit.
pub(crate) fn export_list(list: &[u8], out: &mut [u8]) -> Result<usize, Refusal>
    requires { all_fitting (entries_of list.now).pieces ≡ true }
    ensures { (result, out.new) ≡ written (export_text (entries_of list.now).pieces) out.old }
{
    text::written(out, &Export { list })
}

// A list in which the name of each entry fits a line. Its text is the lines of the entries.
#[derive(Drop)]
struct Export<'a> {
    list: &'a [u8],
    ghost fitting: { all_fitting (entries_of list.now).pieces ≡ true },
}

impl Text for Export<'_> {
    ghost text = { λ e. export_text (entries_of e.list.now).pieces };

    fn put(&self, writer: &mut Writer) {
        put_lines(writer, self.list)
    }
}

// The lines of the entries of `list`.
fn put_lines(writer: &mut Writer, list: &[u8])
    requires { all_fitting (entries_of list.now).pieces ≡ true }
    ensures { Puts writer.old writer.new (export_text (entries_of list.now).pieces) }
{
    for entry in entries::of(list) {
        put_line(writer, entry);
    }
}

// The line of an entry: its sum, two spaces, its name.
fn put_line(writer: &mut Writer, entry: &[u8])
    requires { is_fitting entry.now ≡ true }
    ensures { Puts writer.old writer.new (line_for entry.now) }
{
    writer.put_hex_bytes(layout::part(entry, entries::MD5_AT, layout::HASH_LENGTH));
    writer.put_bytes(b"  ");
    put_units(writer, name_of(entry));
    writer.put(b'\n');
}

// The units of a name, each as a character.
fn put_units(writer: &mut Writer, name: &[u8])
    requires { units_fit (units_of name.now) ≡ true }
    ensures { Puts writer.old writer.new (units_of name.now) }
{
    for unit in entries::units_of(name) {
        writer.put(unit as u8);
    }
}
