// Text that a closure puts, written where it fits.
ghost use Rattle.std.specs.Prelude.{◌≡◌, List, ℕ};
ghost use Rattle.lent_bytes.specs.Writing.{written};
ghost use Rattle.text.specs.Writer.{Puts};

use crate::Writer;
use refusals::{Refusal, bare};

// The text that `put` puts, over the first bytes of `out`, and its length; or 14, and nothing written, where it does not fit. It is put
// twice, to be measured and to be written; once, where it is empty or does not fit. Rattle wants a function that calls a closure to require
// that it can be called. `text::written` requires nothing, but has to know the text before the call; what a closure puts, only its caller can
// say.
pub fn written_by<F: Fn(&mut Writer)>(out: &mut [u8], put: F) -> Result<usize, Refusal>
    requires { F.IsAlwaysCallable put }
    ensures { (t : List ℕ) → ((w : _) (v : _) → F.post put w tt v → Puts w.now v.now t) → (result, out.new) ≡ written t out.old }
{
    let mut measured = Writer::new(&mut out[..0]);
    put(&mut measured);
    let length = measured.position();
    if length == 0 {
        return Ok(0);
    }
    if length <= out.len() {
        put(&mut Writer::new(out));
        return Ok(length);
    }
    Err(bare(refusals::NO_ROOM))
}

#[cfg(test)]
mod tests {
    use super::*;
    use refusals::NO_ROOM;

    // The answer, and what is then in seven bytes, the first `room` of which were lent.
    #[test]
    fn written_where_it_fits(rt: HostRuntime) {
        for (text, room, want, left) in [
            ("", 0, Ok(0), "-------"),
            ("tow 7", 0, Err(NO_ROOM), "-------"),
            ("tow 7", 4, Err(NO_ROOM), "-------"),
            ("tow 7", 5, Ok(5), "tow 7--"),
            ("tow 7", 7, Ok(5), "tow 7--"),
        ] {
            let mut lent = *b"-------";
            let answer = written_by(
                &mut lent[..room],
                |writer| writer.put_bytes(text.as_bytes()),
            );
            let answer = answer.map_err(|refusal| refusal.number);
            assert_eq!(rt; answer, want, "{text} in {room}");
            assert_eq!(rt; lent.as_slice(), left.as_bytes(), "{text} in {room}");
        }
    }
}
