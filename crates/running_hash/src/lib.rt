// A running hash that its owner keeps between the calls (document 02, 2026-03: "Logs too long to hold"): a job, by value.
#![tactic(auto)]

ghost use Rattle.std.specs.Prelude.{◌≡◌};
ghost use Rattle.running_hash.specs.Hash.{start_hash, push_of, end_of};

use md5_digest::Md5;
use refusals::JOB;

// The job, as C's struct par1_hash has it: integers only and no padding, 96 bytes, so that whatever bytes it has, a call answers.
#[repr(C)]
#[derive(Clone, Copy)]
pub struct RunningHash {
    pub hash: Md5,
    // 0 while the job runs, else it is over
    pub ended: u64,
}

// What a call answers: 0 or its refusal; and the job that it leaves.
#[derive(Clone, Copy)]
pub struct Outcome {
    pub number: u32,
    pub next: RunningHash,
}

// The job before any byte.
pub fn start() -> RunningHash
    ensures { result ≡ start_hash }
{
    RunningHash {
        hash: Md5::new(),
        ended: 0,
    }
}

// The job after the bytes too; or 20.
pub fn push(hash: RunningHash, bytes: &[u8]) -> Outcome
    ensures { result ≡ push_of hash bytes.now }
{
    if hash.ended != 0 {
        return Outcome {
            number: JOB,
            next: hash,
        };
    }
    let h = hash.hash;
    let next = RunningHash {
        hash: h.push(bytes),
        ended: 0,
    };
    Outcome { number: 0, next }
}

// The digest of all the bytes over the first 16 bytes of `out`, or 14 where it is shorter, and the job is over; or 20.
pub fn end(hash: RunningHash, out: &mut [u8]) -> Outcome
    ensures { (result, out.new) ≡ end_of hash out.old }
{
    if hash.ended != 0 {
        return Outcome {
            number: JOB,
            next: hash,
        };
    }
    let h = hash.hash;
    let found = h.finish();
    let number = lent_bytes::write(out, &found);
    let next = RunningHash { hash: h, ended: 1 };
    Outcome { number, next }
}
