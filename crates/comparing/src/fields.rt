// The fields of two headers and of two entries, compared one by one.
ghost use Rattle.std.specs.Prelude.{◌≡◌, cond, [], map, take, drop};
ghost use Rattle.lent_bytes.specs.Equal.{equal};
ghost use Rattle.text.specs.Writer.{Puts};
ghost use Rattle.comparing.specs.Lines.{entry as entry_line, head_text, entry_text, text_of};
ghost use Rattle.comparing.specs.Differences.{entry_table, differing, head_lines};

use crate::lines;
use par1_rules::layout;
use par1_rules::layout::{HASH_LENGTH, part};
use text::Writer;

// The lines on the fields of the headers of `one` and `two` that differ.
pub(crate) fn put_header(writer: &mut Writer, one: &[u8], two: &[u8])
    ensures { Puts writer.old writer.new (text_of (head_lines one.now two.now)) }
{
    put_head_field(writer, one, two, layout::VERSION_AT, 4, b"version");
    put_head_field(writer, one, two, layout::PROGRAM_AT, 4, b"program");
    put_head_field(
        writer,
        one,
        two,
        layout::CONTROL_HASH_AT,
        HASH_LENGTH,
        b"control",
    );
    put_head_field(writer, one, two, layout::SET_HASH_AT, HASH_LENGTH, b"set");
    put_head_field(writer, one, two, layout::NUMBER_AT, 8, b"number");
    put_head_field(writer, one, two, layout::COUNT_AT, 8, b"files");
    put_head_field(writer, one, two, layout::LIST_SIZE_AT, 8, b"list");
    put_head_field(writer, one, two, layout::DATA_START_AT, 8, b"start");
    put_head_field(writer, one, two, layout::DATA_SIZE_AT, 8, b"data");
}

// The lines on the fields of the entries `one` and `two`, both at `place`, that differ. The name goes to the end of the longer one.
pub(crate) fn put_fields(writer: &mut Writer, place: u64, one: &[u8], two: &[u8])
    ensures { Puts writer.old writer.new (text_of (map (entry_line place) (differing entry_table one.now two.now))) }
{
    let longer = one.len().max(two.len());
    put_entry_field(writer, place, one, two, 0, 8, b"length");
    put_entry_field(writer, place, one, two, entries::STATUS_AT, 8, b"status");
    put_entry_field(writer, place, one, two, entries::FILE_SIZE_AT, 8, b"size");
    put_entry_field(
        writer,
        place,
        one,
        two,
        entries::MD5_AT,
        HASH_LENGTH,
        b"md5",
    );
    put_entry_field(
        writer,
        place,
        one,
        two,
        entries::MD5_16K_AT,
        HASH_LENGTH,
        b"16k",
    );
    put_entry_field(writer, place, one, two, entries::NAME_AT, longer, b"name");
}

// The line on the header's field in the `count` bytes from `from` on, where it differs.
fn put_head_field(
    writer: &mut Writer,
    one: &[u8],
    two: &[u8],
    from: usize,
    count: usize,
    name: &[u8],
)
    ensures { Puts writer.old writer.new
        (cond (equal (take count (drop from one.now)) (take count (drop from two.now))) [] (head_text name.now)) }
{
    if !same_part(one, two, from, count) {
        lines::put_head(writer, name);
    }
}

// The line on the field in the `count` bytes from `from` on of the entries at `place`, where it differs.
fn put_entry_field(
    writer: &mut Writer,
    place: u64,
    one: &[u8],
    two: &[u8],
    from: usize,
    count: usize,
    name: &[u8],
)
    ensures { Puts writer.old writer.new
        (cond (equal (take count (drop from one.now)) (take count (drop from two.now))) [] (entry_text place name.now)) }
{
    if !same_part(one, two, from, count) {
        lines::put_entry(writer, place, name);
    }
}

// Whether the `count` bytes from `from` on are the same in `one` and `two`; fewer bytes where they end before.
fn same_part(one: &[u8], two: &[u8], from: usize, count: usize) -> bool
    ensures { result ≡ equal (take count (drop from one.now)) (take count (drop from two.now)) }
{
    lent_bytes::same(part(one, from, count), part(two, from, count))
}
