// A running read in lent bytes: 392 of them.
ghost use Rattle.std.specs.Prelude.{◌≡◌, ◌+◌, ◌≤◌, length};
ghost use Rattle.std.proofs.lemmas.List.Edits.{sets};
ghost use Rattle.job_bytes.specs.Reads.{words_bytes, md5_bytes, scan_bytes, read_job_bytes, words_at, md5_at, scan_in, read_job_in, read_job_of};
ghost use Rattle.job_bytes.specs.Reads.{read_stored, read_started, read_pushed, job_number, read_ended};

use crate::marks::{is_marked, mark, name_mark, name_marked};
use answer_bytes::put_reading;
use entries::Totals;
use lent_bytes::{put, write};
use list_scan::Scan;
use little_endian::{read8, read32, read64, write_numbers, write32, write64};
use md5_blocks::Words;
use md5_digest::Md5;
use par1_rules::layout;
use refusals::{JOB, Refusal};
use running_read::RunningRead;

// The length of a running read, in bytes.
const LENGTH: usize = 392;

// Where its parts lie; the bytes so far are at 0.
const HEADER_AT: usize = 8;

const CONTROL_AT: usize = 104;

const ENTRY_AT: usize = 192;

const NUMBERS_AT: usize = 248;

const SET_AT: usize = 296;

const ENDED_AT: usize = 384;

// Starts a running read over the first 392 bytes of `out`.
pub fn start_read(out: &mut [u8]) -> u32
    ensures { (result, out.new) ≡ read_started out.old }
{
    store(0, running_read::start(), out)
}

// Pushes bytes into the running read in the bytes of `job`.
pub fn push_read<'a, 'b>(job: &'a mut [u8], bytes: &'b [u8]) -> u32
    ensures { (result, job.new) ≡ read_pushed job.old bytes.now }
{
    let pushed = running_read::push(loaded(job), bytes);
    let next = pushed.next;
    store(pushed.number, next, job)
}

// Ends the running read in the bytes of `job`: the parts of the file over the first bytes of `out`, or a refusal.
pub fn end_read<'a, 'b>(job: &'a mut [u8], out: &'b mut [u8]) -> Refusal
    ensures { (result, job.new, out.new) ≡ read_ended job.old out.old }
{
    let ended = running_read::end(loaded(job));
    let reading = ended.reading;
    let next = ended.next;
    let answer = put_reading(reading, out);
    store(job_number(answer.number), next, job);
    answer
}

// The running read that the bytes are; one that is over where they are not 392.
fn loaded(bytes: &[u8]) -> RunningRead
    ensures { result ≡ read_job_of bytes.now }
{
    if bytes.len() != LENGTH {
        return running_read::over(running_read::start());
    }
    read_in(bytes)
}

// The running read in 392 bytes.
fn read_in(bytes: &[u8]) -> RunningRead
    requires { length bytes.now ≡ 392 }
    ensures { result ≡ read_job_in bytes.now }
{
    let mut header = [0u8; layout::HEADER_LENGTH];
    put(
        &mut header,
        0,
        layout::part(bytes, HEADER_AT, layout::HEADER_LENGTH),
    );
    let control = md5_at(bytes, CONTROL_AT);
    let list = scan_in(bytes);
    RunningRead {
        total: read64(bytes, 0),
        header,
        control,
        list,
        ended: is_marked(read64(bytes, ENDED_AT)),
    }
}

// The scan of the list in 392 bytes.
fn scan_in(bytes: &[u8]) -> Scan
    requires { length bytes.now ≡ 392 }
    ensures { result ≡ scan_in bytes.now }
{
    let mut head = [0u8; entries::NAME_AT];
    put(
        &mut head,
        0,
        layout::part(bytes, ENTRY_AT, entries::NAME_AT),
    );
    let hash = md5_at(bytes, SET_AT);
    Scan {
        head,
        at: read64(bytes, 248),
        low: read8(bytes, 256),
        named: name_marked(read64(bytes, 264)),
        totals: Totals {
            entries: read64(bytes, 272),
            saved: read64(bytes, 280),
            greatest: read64(bytes, 288),
        },
        hash,
    }
}

// The hash in the 88 bytes from `at` on.
fn md5_at(bytes: &[u8], at: usize) -> Md5
    requires { at + 88 ≤ length bytes.now }
    ensures { result ≡ md5_at bytes.now at }
{
    let mut tail = [0u8; 64];
    put(&mut tail, 0, layout::part(bytes, at + 16, 64));
    let words = words_at(bytes, at);
    Md5 {
        words,
        tail,
        total: read64(bytes, at + 80),
    }
}

// The four words in the 16 bytes from `at` on.
fn words_at(bytes: &[u8], at: usize) -> Words
    requires { at + 16 ≤ length bytes.now }
    ensures { result ≡ words_at bytes.now at }
{
    Words {
        a: read32(bytes, at),
        b: read32(bytes, at + 4),
        c: read32(bytes, at + 8),
        d: read32(bytes, at + 12),
    }
}

// The job that a call left over the first bytes of `out`, and 0; or the number of the refusal.
fn store(number: u32, job: RunningRead, out: &mut [u8]) -> u32
    ensures { (result, out.new) ≡ read_stored number job out.old }
{
    if number != 0 {
        return number;
    }
    let bytes = bytes_of(job);
    write(out, &bytes)
}

// The bytes of a running read.
fn bytes_of(job: RunningRead) -> [u8; LENGTH]
    ensures { result ≡ read_job_bytes job }
{
    let header = job.header;
    let control = job.control;
    let list = job.list;
    let mut bytes = [0u8; LENGTH];
    write64(&mut bytes, 0, job.total);
    put(&mut bytes, HEADER_AT, &header);
    put_md5(&mut bytes, CONTROL_AT, control);
    put_scan(&mut bytes, list);
    write64(&mut bytes, ENDED_AT, mark(job.ended));
    bytes
}

// Writes the bytes of a scan where they lie.
fn put_scan(out: &mut [u8], scan: Scan)
    ensures { out.new ≡ sets out.old 192 (scan_bytes scan) }
{
    let head = scan.head;
    let named = scan.named;
    let totals = scan.totals;
    let hash = scan.hash;
    let numbers = [
        scan.at,
        scan.low as u64,
        name_mark(named),
        totals.entries,
        totals.saved,
        totals.greatest,
    ];
    put(out, ENTRY_AT, &head);
    write_numbers(out, NUMBERS_AT, &numbers);
    put_md5(out, SET_AT, hash);
}

// Writes the bytes of a hash from `at` on.
fn put_md5(out: &mut [u8], at: usize, hash: Md5)
    requires { at ≤ 296 }
    ensures { out.new ≡ sets out.old at (md5_bytes hash) }
{
    let words = hash.words;
    let tail = hash.tail;
    put_words(out, at, words);
    put(out, at + 16, &tail);
    write64(out, at + 80, hash.total);
}

// Writes four words from `at` on.
fn put_words(out: &mut [u8], at: usize, words: Words)
    requires { at ≤ 296 }
    ensures { out.new ≡ sets out.old at (words_bytes words) }
{
    write32(out, at, words.a);
    write32(out, at + 4, words.b);
    write32(out, at + 8, words.c);
    write32(out, at + 12, words.d);
}

// The number of a call that refused its job, 0 where the call gave the number `number` for another reason.
fn job_number(number: u32) -> u32
    ensures { result ≡ job_number number }
{
    if number == JOB { JOB } else { 0 }
}
