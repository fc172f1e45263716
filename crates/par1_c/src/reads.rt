// The calls on a running read in lent bytes. Bytes of another length than its own are loaded as one that is over, which every call refuses with
// 20.
ghost use Rattle.std.specs.Prelude.{◌≡◌};
ghost use Rattle.job_bytes.specs.Reads.{read_started, read_pushed, read_ended};
ghost use Rattle.par1_c.specs.Answers.{answered_end};

use crate::answer;
use job_bytes::{end_read, push_read, start_read};

// Starts a running read over the first 392 bytes of `job`.
#[unsafe(no_mangle)]
pub extern "C" fn par1_read_start(job: &mut [u8]) -> u32
    ensures { (result, job.new) ≡ read_started job.old }
{
    start_read(job)
}

// Takes the bytes of the file that come next.
#[unsafe(no_mangle)]
pub extern "C" fn par1_read_push(job: &mut [u8], bytes: &[u8]) -> u32
    ensures { (result, job.new) ≡ read_pushed job.old bytes.now }
{
    push_read(job, bytes)
}

// Ends a running read: the parts of the file over the first 64 bytes of `out`.
#[unsafe(no_mangle)]
pub extern "C" fn par1_read_end(job: &mut [u8], out: &mut [u8]) -> u64
    ensures { (result, job.new, out.new) ≡ answered_end (read_ended job.old out.old) }
{
    answer(end_read(job, out))
}
