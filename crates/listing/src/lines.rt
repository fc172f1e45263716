// The lines of a listing, each put by a writer.
ghost use Rattle.std.specs.Prelude.{◌≡◌, map};
ghost use Rattle.entries.specs.Entry.{units_of};
ghost use Rattle.entries.specs.Walk.{entries_of};
ghost use Rattle.text.specs.Writer.{Puts};
ghost use Rattle.listing.specs.Lines.{shown as shown_of, is_placed, place_field, refused_line, head_line, label, line_of, entry_lines};

use par1_rules::layout;
use refusals::Refusal;
use text::Writer;

// The line of a refused file.
pub fn put_refused(writer: &mut Writer, refusal: Refusal)
    ensures { Puts writer.old writer.new (refused_line refusal) }
{
    writer.put_field(b"refused ", u64::from(refusal.number));
    put_place(writer, refusal);
    writer.put(b'\n');
}

// The first line of an accepted file.
pub fn put_head(writer: &mut Writer, volume: u64, files: u64, saved: u64)
    ensures { Puts writer.old writer.new (head_line volume files saved) }
{
    writer.put_field(b"volume ", volume);
    writer.put_field(b" files ", files);
    writer.put_field(b" saved ", saved);
    writer.put(b'\n');
}

// The lines of the entries of `list`, up to the first fault.
pub fn put_entries(writer: &mut Writer, list: &[u8])
    ensures { Puts writer.old writer.new (entry_lines 0 (entries_of list.now).pieces) }
{
    let mut saved: u64 = 0;
    for entry in entries::of(list) {
        let status = entries::status_of(entry);
        let name = layout::name_of(entry);
        saved += entries::saved_count(status);
        put_line(writer, status, saved, entries::file_size_of(entry), name);
    }
}

// The line of an entry: its label, its file's size, its name.
fn put_line(writer: &mut Writer, status: u64, number: u64, size: u64, name: &[u8])
    ensures { Puts writer.old writer.new (line_of status number size name.now) }
{
    put_label(writer, status, number);
    writer.put_field(b" ", size);
    writer.put(b' ');
    put_name(writer, name);
    writer.put(b'\n');
}

// The place of a refusal, where it is listed.
fn put_place(writer: &mut Writer, refusal: Refusal)
    ensures { Puts writer.old writer.new (place_field refusal) }
{
    if is_placed(refusal.number) {
        writer.put_field(b" ", refusal.place);
    }
}

// Whether a refusal with this number is listed with its place: those of an entry and of the number of entries.
#[tactic(auto, unfolding(crate::specs::Lines::is_placed))]
fn is_placed(number: u32) -> bool
    ensures { result ≡ is_placed number }
{
    refusals::ENTRY_SIZE <= number && number <= refusals::ENTRY_COUNT
}

// The file number of a saved entry, "-" for another.
fn put_label(writer: &mut Writer, status: u64, number: u64)
    ensures { Puts writer.old writer.new (label status number) }
{
    if entries::is_saved(status) {
        writer.put_decimal(number);
    } else {
        writer.put(b'-');
    }
}

// The units of a name, each as a character.
fn put_name(writer: &mut Writer, name: &[u8])
    ensures { Puts writer.old writer.new (map shown_of (units_of name.now)) }
{
    for unit in entries::units_of(name) {
        writer.put(shown(unit));
    }
}

// The character of a name unit: itself from 32 to 126, else "?".
#[tactic(auto, unfolding(crate::specs::Lines::shown))]
fn shown(unit: u16) -> u8
    ensures { result ≡ shown_of unit }
{
    if 32 <= unit && unit <= 126 {
        unit as u8
    } else {
        b'?'
    }
}
