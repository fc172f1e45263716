// A running mul_add: a fragment that comes in successive chunks (document 02, 2026-03: folding).
#![tactic(auto)]

ghost use Rattle.std.specs.Prelude.{◌≡◌};
ghost use Rattle.running_mul_add.specs.Running.{mul_add_at, position_after, start_mul_add, refused, push_of, end_of};

use refusals::JOB;

// A running mul_add: its weight, the place in the buffer where the next chunk goes on, and whether it is over.
#[derive(Clone, Copy)]
pub struct RunningMulAdd {
    pub weight: u8,
    pub position: u64,
    pub ended: bool,
}

// What a call on a running mul_add answers: 0, or 20 where it is over; and the job after it.
#[derive(Clone, Copy)]
pub struct Outcome {
    pub number: u32,
    pub next: RunningMulAdd,
}

// A running mul_add with this weight, from the first byte of the buffer on.
pub fn start(weight: u8) -> RunningMulAdd
    ensures { result ≡ start_mul_add weight }
{
    RunningMulAdd {
        weight,
        position: 0,
        ended: false,
    }
}

// Adds weight times the fragment to the buffer from the job's position on, as far as both go; the next push goes on after the fragment.
pub fn push(job: RunningMulAdd, fragment: &[u8], buffer: &mut [u8]) -> Outcome
    ensures { (result, buffer.new) ≡ push_of job fragment.now buffer.old }
{
    if job.ended {
        return refused(job);
    }
    mul_add_at(job.weight, job.position as usize, fragment, buffer);
    Outcome {
        number: 0,
        next: RunningMulAdd {
            weight: job.weight,
            position: position_after(job.position, fragment.len()),
            ended: false,
        },
    }
}

// Ends the job.
pub fn end(job: RunningMulAdd) -> Outcome
    ensures { result ≡ end_of job }
{
    if job.ended {
        return refused(job);
    }
    Outcome {
        number: 0,
        next: RunningMulAdd {
            weight: job.weight,
            position: job.position,
            ended: true,
        },
    }
}

// A job that is over is refused, and stays as it is.
fn refused(job: RunningMulAdd) -> Outcome
    ensures { result ≡ refused job }
{
    Outcome {
        number: JOB,
        next: job,
    }
}

// Adds weight times the fragment to the buffer from `at` on, as far as both go.
fn mul_add_at(weight: u8, at: usize, fragment: &[u8], buffer: &mut [u8])
    ensures { buffer.new ≡ mul_add_at weight at fragment.now buffer.old }
{
    if buffer.len() <= at {
        return;
    }
    mul_add::mul_add(weight, fragment, &mut buffer[at..]);
}

// The position `count` bytes after this one, or the last one, which is past every buffer.
fn position_after(position: u64, count: usize) -> u64
    ensures { result ≡ position_after position count }
{
    if position <= u64::MAX - count as u64 {
        position + count as u64
    } else {
        u64::MAX
    }
}
