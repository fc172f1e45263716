// MD5 (RFC 1321) of any bytes: at once, into lent bytes, or by a running hash that takes the message in parts.
#![tactic(auto)]

ghost use Rattle.std.specs.Prelude.{◌≡◌, ◌+◌, ◌≤◌, [], ◌++◌, length};
ghost use Rattle.std.proofs.Math.Seq.{paste};
ghost use Rattle.md5_blocks.specs.Blocks.{all_blocks};
ghost use Rattle.md5_digest.specs.Padding.{padding};
ghost use Rattle.md5_digest.specs.Digest.{md5, digest_into};
ghost use Rattle.md5_digest.specs.Running.{state_of, pushed, waiting, finished};

use md5_blocks::Words;

// The digest of `bytes`.
pub fn digest(bytes: &[u8]) -> [u8; 16]
    ensures { result ≡ md5 bytes.now }
{
    Md5::new().push(bytes).finish()
}

// The digest of `bytes` over the first 16 bytes of `out`, and 0; or 14, and nothing written, where `out` is shorter.
pub fn digest_into(bytes: &[u8], out: &mut [u8]) -> u32
    ensures { (result, out.new) ≡ digest_into bytes.now out.old }
{
    let found = digest(bytes);
    lent_bytes::write(out, &found)
}

// A running hash: the words after the whole blocks so far; the bytes that wait for their block to be full, of which there are
// total % 64, then zeros; and how many bytes there were, modulo 2^64.
#[repr(C)]
#[derive(Clone, Copy)]
pub struct Md5 {
    pub words: Words,
    pub tail: [u8; 64],
    pub total: u64,
}

impl Md5 {
    // The state before any byte.
    pub fn new() -> Self
        ensures { result ≡ state_of [] }
    {
        Md5 {
            words: Words {
                a: 0x67452301,
                b: 0xefcdab89,
                c: 0x98badcfe,
                d: 0x10325476,
            },
            tail: [0; 64],
            total: 0,
        }
    }

    // The state after the bytes too.
    pub fn push(self, bytes: &[u8]) -> Self
        ensures { result ≡ pushed self bytes.now }
    {
        let total = self.total.wrapping_add(bytes.len() as u64);
        let at = (self.total % 64) as usize;
        let waiting = fill([0; 64], 0, &self.tail[..at]);
        if bytes.len() < 64 - at {
            let tail = fill(waiting, at, bytes);
            return Md5 {
                words: self.words,
                tail,
                total,
            };
        }
        let (first, more) = bytes.split_at(64 - at);
        let last = more.chunks_exact(64).remainder();
        Md5 {
            words: md5_blocks::after_blocks(self.words, &fill(waiting, at, first), more),
            tail: fill([0; 64], 0, last),
            total,
        }
    }

    // The digest of all the bytes.
    pub fn finish(self) -> [u8; 16]
        ensures { result ≡ finished self }
    {
        let words = self.end();
        let mut out = [0; 16];
        little_endian::write32(&mut out, 0, words.a);
        little_endian::write32(&mut out, 4, words.b);
        little_endian::write32(&mut out, 8, words.c);
        little_endian::write32(&mut out, 12, words.d);
        out
    }

    // The words after the padding: a byte 128, zeros, and how many bits there were.
    fn end(self) -> Words
        ensures { result ≡ all_blocks self.words (waiting self ++ padding self.total) }
    {
        let zeros = ((119 - self.total % 64) % 64) as usize;
        let mut padding = [0; 72];
        padding[0] = 128;
        little_endian::write64(&mut padding, zeros + 1, self.total.wrapping_mul(8));
        self.push(&padding[..zeros + 9]).words
    }
}

// The block with the bytes over those from `at` on.
fn fill(mut block: [u8; 64], at: usize, bytes: &[u8]) -> [u8; 64]
    requires { at + length bytes.now ≤ 64 }
    ensures { result ≡ paste block at bytes.now (length bytes.now) }
{
    block[at..at + bytes.len()].copy_from_slice(bytes);
    block
}
