// The replay of a log of arrivals.
ghost use Rattle.par1_c.specs.Replays.{ReplayInto};

use crate::{answer, length_told};

// What a replay of the log prints, over the first bytes of `out`; the value of the answer is its length.
#[unsafe(no_mangle)]
pub extern "C" fn par1_replay(log: &[u8], out: &mut [u8]) -> u64
    ensures { ReplayInto log.now out.old result out.new }
{
    answer(length_told(replay::replay(log, out)))
}
