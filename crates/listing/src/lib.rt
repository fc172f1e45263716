// The listing of an index file or volume, as text into a lent buffer (document 01, "What comes back").
#![tactic(auto)]

ghost use Rattle.std.specs.Prelude.{◌≡◌};
ghost use Rattle.lent_bytes.specs.Writing.{written};
ghost use Rattle.text.specs.Writer.{Puts};
ghost use Rattle.listing.specs.Listing.{listing_by, listing_of, input_listing, ListIn, ListIn-prop};

mod lines;

use par1_read::Parts;
use par1_rules::layout::HEADER_LENGTH;
use refusals::{Refusal, bare};
use text::{Text, Writer};

// The listing of `file` over the first bytes of `out`, and its length; or 14, and nothing written, where it does not fit.
pub fn list(file: &[u8], out: &mut [u8]) -> Result<usize, Refusal>
    ensures { (result, out.new) ≡ written (listing_of file.now) out.old }
{
    list_as(file, par1::read(file), out)
}

// The listing of a program's input: that of the file it is, or a refusal with 1 where it is too long.
pub fn list_input(input: &[u8], out: &mut [u8]) -> Result<usize, Refusal>
    ensures { (result, out.new) ≡ written (input_listing input.now) out.old }
{
    if input.len() <= refusals::MAX_LISTED_LENGTH {
        return list(input, out);
    }
    list_as(input, Err(bare(refusals::SIZE)), out)
}

// The listing of a file that reads as `reading`, written where it fits.
fn list_as(file: &[u8], reading: Result<Parts, Refusal>, out: &mut [u8]) -> Result<usize, Refusal>
    requires { ListIn reading file.now }
    ensures { (result, out.new) ≡ written (listing_by reading file.now) out.old }
{
    text::written(out, &Listing { file, reading })
}

// A file and what it reads as. Its text is the listing.
#[derive(Drop)]
struct Listing<'a> {
    file: &'a [u8],
    reading: Result<Parts, Refusal>,
    ghost list_in: { ListIn reading file.now } by { ListIn-prop reading file.now },
}

impl Text for Listing<'_> {
    ghost text = { λ l. listing_by l.reading l.file.now };

    fn put(&self, writer: &mut Writer) {
        put_listing(writer, self.file, self.reading)
    }
}

// The listing of a file that reads as `reading`.
fn put_listing(writer: &mut Writer, file: &[u8], reading: Result<Parts, Refusal>)
    requires { ListIn reading file.now }
    ensures { Puts writer.old writer.new (listing_by reading file.now) }
{
    let Ok(parts) = reading else {
        lines::put_refused(writer, par1_read::refusal_of(reading));
        return;
    };
    lines::put_head(writer, parts.number, parts.entries, parts.saved);
    let end = HEADER_LENGTH + parts.list_size as usize;
    lines::put_entries(writer, &file[HEADER_LENGTH..end]);
}
