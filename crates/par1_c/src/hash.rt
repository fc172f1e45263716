// The calls on a running hash where it stands: C owns the job, as struct par1_hash.
ghost use Rattle.std.specs.Prelude.{◌≡◌};
ghost use Rattle.running_hash.specs.Hash.{outcome, start_hash, push_of, end_of};

use running_hash::RunningHash;

// Starts a job, over whatever stood there.
#[unsafe(no_mangle)]
pub extern "C" fn par1_hash_start(hash: &mut RunningHash)
    ensures { hash.new ≡ start_hash }
{
    *hash = running_hash::start();
}

// Pushes the bytes into the job; or 20.
#[unsafe(no_mangle)]
pub extern "C" fn par1_hash_push(hash: &mut RunningHash, bytes: &[u8]) -> u32
    ensures { outcome result hash.new ≡ push_of hash.old bytes.now }
{
    let done = running_hash::push(*hash, bytes);
    *hash = done.next;
    done.number
}

// Ends the job: the MD5 of all the bytes pushed over the first 16 bytes of `out`; or 20, or 14, which ends it too.
#[unsafe(no_mangle)]
pub extern "C" fn par1_hash_end(hash: &mut RunningHash, out: &mut [u8]) -> u32
    ensures { (outcome result hash.new, out.new) ≡ end_of hash.old out.old }
{
    let done = running_hash::end(*hash, out);
    *hash = done.next;
    done.number
}
