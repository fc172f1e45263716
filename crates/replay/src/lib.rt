// The replay of a log of arrivals (document 02, 2026-11): after each event the missing files that are recoverable.
#![tactic(auto)]

ghost use Rattle.std.specs.Prelude.{Bool, ℕ};
ghost use Rattle.recovery.specs.Recoverable.{State};
ghost use Rattle.parity.specs.Coefficient.{coefficient};
ghost use Rattle.text.specs.Writer.{Puts};
ghost use Rattle.replay.specs.Replay.{Decides, replay_of, Replayed};

mod events;
mod first_line;
mod lines;

pub use events::{Event, Replay, next, open, told};
pub use lines::put_line;
use refusals::{Refusal, bare};
pub use text::Writer;

// What a replay of the log prints, over the first bytes of `out`, and its length; or 14, and nothing written, where it does not fit. It is
// worked out twice, to be measured and to be written; the matrix of an event's elimination takes 65,536 bytes of stack. By hand and not by
// `text::written`: what put_replay promises has a premise, and what a `text::Text` promises has none. No call
// goes by `text::written_by`, which has a `requires`.
pub fn replay(log: &[u8], out: &mut [u8]) -> Result<usize, Refusal>
    ensures { Replayed coefficient log.now out.old (result, out.new) }
{
    let mut measured = Writer::new(&mut out[..0]);
    put_replay(&mut measured, log);
    let length = measured.position();
    if length <= out.len() {
        put_replay(&mut Writer::new(out), log);
        return Ok(length);
    }
    Err(bare(refusals::NO_ROOM))
}

// What a replay of the log prints.
fn put_replay(writer: &mut Writer, log: &[u8])
    ensures { (d : State → ℕ → Bool) → Decides coefficient d → Puts writer.old writer.new (replay_of d log.now) }
{
    match open(log) {
        Ok(replay) => {
            for event in replay {
                put_line(writer, event);
            }
        }
        Err(number) => put_line(writer, Err(number)),
    }
}
