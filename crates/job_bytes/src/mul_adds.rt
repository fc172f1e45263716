// A running mul_add in lent bytes: three numbers of 64 bits.
ghost use Rattle.std.specs.Prelude.{◌≡◌};
ghost use Rattle.job_bytes.specs.MulAdds.{mul_add_bytes, mul_add_of, over_mul_add, mul_add_started, mul_add_stored};

use crate::marks::mark;
use lent_bytes::write;
use little_endian::{read64, write_numbers};
use running_mul_add::{Outcome, RunningMulAdd};

// The length of a running mul_add, in bytes.
const LENGTH: usize = 24;

// The greatest weight.
const MAX_WEIGHT: u64 = 255;

// Starts a running mul_add with this weight over the first 24 bytes of `out`.
pub fn start_mul_add(weight: u8, out: &mut [u8]) -> u32
    ensures { (result, out.new) ≡ mul_add_started weight out.old }
{
    let started = Outcome {
        number: 0,
        next: running_mul_add::start(weight),
    };
    store_mul_add(started, out)
}

// The running mul_add that the bytes are; one that is over where they are none.
pub fn loaded_mul_add(bytes: &[u8]) -> RunningMulAdd
    ensures { result ≡ mul_add_of bytes.now }
{
    if bytes.len() != LENGTH {
        return over();
    }
    let weight = read64(bytes, 0);
    if MAX_WEIGHT < weight {
        return over();
    }
    if read64(bytes, 16) != 0 {
        return over();
    }
    RunningMulAdd {
        weight: weight as u8,
        position: read64(bytes, 8),
        ended: false,
    }
}

// An accepted outcome's job over the first bytes of `out`, and 0; or the number of the refusal.
pub fn store_mul_add(outcome: Outcome, out: &mut [u8]) -> u32
    ensures { (result, out.new) ≡ mul_add_stored outcome out.old }
{
    if outcome.number != 0 {
        return outcome.number;
    }
    let next = outcome.next;
    let bytes = bytes_of(next);
    write(out, &bytes)
}

// A job that is over.
fn over() -> RunningMulAdd
    ensures { result ≡ over_mul_add }
{
    RunningMulAdd {
        weight: 0,
        position: 0,
        ended: true,
    }
}

// The job's three numbers.
fn bytes_of(job: RunningMulAdd) -> [u8; LENGTH]
    ensures { result ≡ mul_add_bytes job }
{
    let numbers = [job.weight as u64, job.position, mark(job.ended)];
    let mut bytes = [0u8; LENGTH];
    write_numbers(&mut bytes, 0, &numbers);
    bytes
}
