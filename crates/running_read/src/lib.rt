// Reading of a Par 1.0 file that comes in chunks (document 02, 2026-03: "Logs too long to hold").
#![tactic(auto)]

ghost use Rattle.std.specs.Prelude.{◌≡◌, ◌+◌, ◌-◌, ◌*◌, ◌≤◌, leb, take, drop};
ghost use Rattle.running_read.specs.Running.{cap, start_read, counts_of, is_open, push_of, reading_of, over_of, push_answer, end_answer};

use list_scan::Scan;
use md5_digest::Md5;
use par1_read::Parts;
use par1_rules::layout;
use refusals::{JOB, MAX_VOLUME_LENGTH, Refusal};

// One byte more than a file may have: with so many it is refused with 1, whatever follows.
const CAP: u64 = MAX_VOLUME_LENGTH as u64 + 1;

// A file that is being read: how many bytes came, as far as the cap; the header, with zeros where it has not come; the hash of the bytes
// from 32 on; the scan of the list; and whether the job is over.
#[derive(Clone, Copy)]
pub struct RunningRead {
    pub total: u64,
    pub header: [u8; 96],
    pub control: Md5,
    pub list: Scan,
    pub ended: bool,
}

// What a push gives: 0 and the job after it, or 20 and the job as it was.
#[derive(Clone, Copy)]
pub struct Pushed {
    pub number: u32,
    pub next: RunningRead,
}

// What an end gives: what reading all the bytes gives and the job, which is over; or the refusal 20 and the job as it was.
#[derive(Clone, Copy)]
pub struct Ended {
    pub reading: Result<Parts, Refusal>,
    pub next: RunningRead,
}

// What a job counts: the bytes that came, those that the control hash has, those of the entry at hand, the entries, the saved ones, and the bytes
// that the set hash has; and whether it is over.
#[derive(Clone, Copy)]
struct Counts {
    total: u64,
    control: u64,
    at: u64,
    entries: u64,
    saved: u64,
    set: u64,
    ended: bool,
}

// The job before any byte.
pub fn start() -> RunningRead
    ensures { result ≡ start_read }
{
    RunningRead {
        total: 0,
        header: [0u8; 96],
        control: Md5::new(),
        list: list_scan::start(),
        ended: false,
    }
}

// Pushes bytes into a job.
pub fn push(job: RunningRead, bytes: &[u8]) -> Pushed
    ensures { result ≡ push_answer job bytes.now }
{
    if !is_open(counts_of(job)) {
        return Pushed {
            number: JOB,
            next: job,
        };
    }
    Pushed {
        number: 0,
        next: extended(job, bytes),
    }
}

// Ends a job.
pub fn end(job: RunningRead) -> Ended
    ensures { result ≡ end_answer job }
{
    if !is_open(counts_of(job)) {
        return Ended {
            reading: Err(refusals::bare(JOB)),
            next: job,
        };
    }
    Ended {
        reading: reading_of(job),
        next: over(job),
    }
}

// The job, over.
pub fn over(job: RunningRead) -> RunningRead
    ensures { result ≡ over_of job }
{
    RunningRead { ended: true, ..job }
}

// What a job counts.
fn counts_of(job: RunningRead) -> Counts
    ensures { result ≡ counts_of job }
{
    Counts {
        total: job.total,
        control: job.control.total,
        at: job.list.at,
        entries: job.list.totals.entries,
        saved: job.list.totals.saved,
        set: job.list.hash.total,
        ended: job.ended,
    }
}

// Whether a job with these counts goes on: it is not over, and some run of pushes gives them.
#[tactic(auto, unfolding(crate::specs::Running::is_open, crate::specs::Running::cap))]
fn is_open(counts: Counts) -> bool
    ensures { result ≡ is_open counts }
{
    let room = counts.total.saturating_sub(layout::LIST_START);
    !counts.ended
        && counts.total <= CAP
        && counts.control == counts.total.saturating_sub(layout::SET_HASH_AT as u64)
        && entries_fit(counts.at, counts.entries, room)
        && counts.saved <= counts.entries
        && counts.set == layout::HASH_LENGTH as u64 * counts.saved
}

// Whether `room` bytes of a list hold so many entries and `at` bytes of the next one.
fn entries_fit(at: u64, entries: u64, room: u64) -> bool
    ensures { result ≡ leb (at + 58 * entries) room }
{
    at <= room && entries <= (room - at) / entries::MIN_ENTRY_SIZE
}

// The job after the bytes too.
fn extended(job: RunningRead, bytes: &[u8]) -> RunningRead
    requires { job.total ≤ cap }
    ensures { result ≡ push_of job bytes.now }
{
    let total = job.total;
    let taken = layout::part(bytes, 0, CAP.saturating_sub(total) as usize);
    let mut header = job.header;
    lent_bytes::put(&mut header, total as usize, taken);
    let list_size = little_endian::read64(&header, layout::LIST_SIZE_AT);
    let control = job.control;
    let list = job.list;
    RunningRead {
        total: total + taken.len() as u64,
        header,
        control: control.push(hashed_in(taken, total)),
        list: list_scan::push(list, listed_in(taken, total, list_size)),
        ended: job.ended,
    }
}

// Of bytes that come after `total` others, those that the control hash covers.
fn hashed_in(bytes: &[u8], total: u64) -> &[u8]
    ensures { result.now ≡ drop (32 - total) bytes.now }
{
    let from = (layout::SET_HASH_AT as u64).saturating_sub(total);
    layout::part(bytes, from as usize, bytes.len())
}

// Of bytes that come after `total` others, those of a list of `size` bytes.
fn listed_in(bytes: &[u8], total: u64, size: u64) -> &[u8]
    ensures { result.now ≡ take (size - (total - 96)) (drop (96 - total) bytes.now) }
{
    let from = layout::LIST_START.saturating_sub(total);
    let left = size.saturating_sub(total.saturating_sub(layout::LIST_START));
    layout::part(bytes, from as usize, left as usize)
}

// What reading all the bytes gives.
fn reading_of(job: RunningRead) -> Result<Parts, Refusal>
    ensures { result ≡ reading_of job }
{
    let header = job.header;
    let control = job.control;
    let list = job.list;
    let digest = control.finish();
    let set = list_scan::set_hash(list);
    par1_read::read_from(
        &header,
        job.total as usize,
        &digest,
        &set,
        list_scan::found(list),
    )
}
