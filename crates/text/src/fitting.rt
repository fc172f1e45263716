// Text that is written where it fits.
ghost use Rattle.std.specs.Prelude.{◌≡◌, List, ℕ};
ghost use Rattle.lent_bytes.specs.Writing.{written};
ghost use Rattle.text.specs.Writer.{Puts};

use crate::Writer;
use refusals::{Refusal, bare};

// A value that has a text and puts it. `put` has no `requires`, since `written` calls it on any value: what it needs, the value keeps as a
// ghost field.
pub trait Text {
    ghost text: { Self → List ℕ };

    // The text, after what the writer has.
    fn put(&self, writer: &mut Writer)
        ensures { Puts writer.old writer.new (text self.now) };
}

// The text of `value` over the first bytes of `out`, and its length; or 14, and nothing written, where it does not fit. It is put twice, to
// be measured and to be written; once, where it is empty or does not fit.
pub fn written<T: Text>(out: &mut [u8], value: &T) -> Result<usize, Refusal>
    ensures { (result, out.new) ≡ written (T.text value.now) out.old }
{
    let mut measured = Writer::new(&mut out[..0]);
    value.put(&mut measured);
    let length = measured.position();
    if length == 0 {
        return Ok(0);
    }
    if length <= out.len() {
        value.put(&mut Writer::new(out));
        return Ok(length);
    }
    Err(bare(refusals::NO_ROOM))
}
