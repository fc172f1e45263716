// The calls on a running mul_add in lent bytes. Bytes that are none are loaded as one that is over, which every call refuses with 20.
ghost use Rattle.std.specs.Prelude.{◌≡◌};
ghost use Rattle.job_bytes.specs.MulAdds.{mul_add_started, mul_add_pushed, mul_add_ended};

use job_bytes::{loaded_mul_add, start_mul_add, store_mul_add};
use running_mul_add::{end, push};

// Starts a running mul_add with this weight over the first 24 bytes of `job`.
#[unsafe(no_mangle)]
pub extern "C" fn par1_mul_add_start(weight: u8, job: &mut [u8]) -> u32
    ensures { (result, job.new) ≡ mul_add_started weight job.old }
{
    start_mul_add(weight, job)
}

// Adds weight times the fragment to the buffer from where the last fragment ended, as far as both go.
#[unsafe(no_mangle)]
pub extern "C" fn par1_mul_add_push(job: &mut [u8], fragment: &[u8], buffer: &mut [u8]) -> u32
    ensures { (result, job.new, buffer.new) ≡ mul_add_pushed job.old fragment.now buffer.old }
{
    store_mul_add(push(loaded_mul_add(job), fragment, buffer), job)
}

// Ends a running mul_add.
#[unsafe(no_mangle)]
pub extern "C" fn par1_mul_add_end(job: &mut [u8]) -> u32
    ensures { (result, job.new) ≡ mul_add_ended job.old }
{
    store_mul_add(end(loaded_mul_add(job)), job)
}
