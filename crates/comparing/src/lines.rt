// The lines of a comparison, each put by a writer.
ghost use Rattle.std.specs.Prelude.{◌≡◌};
ghost use Rattle.text.specs.Writer.{Puts};
ghost use Rattle.comparing.specs.Lines.{head_text, entry_text, run_text, text_of};
ghost use Rattle.comparing.specs.Comparing.{refusal_lines};

use par1_read::Parts;
use refusals::Refusal;
use text::Writer;

// The line on the field of the header with this name.
pub(crate) fn put_head(writer: &mut Writer, name: &[u8])
    ensures { Puts writer.old writer.new (head_text name.now) }
{
    writer.put_bytes(b"head ");
    writer.put_bytes(name);
    writer.put(b'\n');
}

// The line on the field with this name of the entry at `place`.
pub(crate) fn put_entry(writer: &mut Writer, place: u64, name: &[u8])
    ensures { Puts writer.old writer.new (entry_text place name.now) }
{
    writer.put_field(b"entry ", place);
    writer.put(b' ');
    writer.put_bytes(name);
    writer.put(b'\n');
}

// The line on a run of data bytes.
pub(crate) fn put_run(writer: &mut Writer, first: u64, last: u64)
    ensures { Puts writer.old writer.new (run_text first last) }
{
    writer.put_field(b"data ", first);
    writer.put_field(b" ", last);
    writer.put(b'\n');
}

// The line on the file of this side, where its reading is a refusal.
pub(crate) fn put_refusal(writer: &mut Writer, side: u64, reading: Result<Parts, Refusal>)
    ensures { Puts writer.old writer.new (text_of (refusal_lines side reading)) }
{
    let Err(refusal) = reading else {
        return;
    };
    writer.put_field(b"refused ", side);
    writer.put_field(b" ", u64::from(refusal.number));
    writer.put(b'\n');
}
