// The blocks of a message, one after the other (RFC 1321, 3.4).
ghost use Rattle.std.specs.Prelude.{◌≡◌};
ghost use Rattle.md5_blocks.specs.Rounds.{sines};
ghost use Rattle.md5_blocks.specs.Blocks.{words_of, plus, compress, all_blocks};

use crate::rounds::{Words, rounds};

// T[1] to T[64], each the whole part of 2^32 * abs(sin(i)).
const SINES: [u32; 64] = [
    0xd76aa478, 0xe8c7b756, 0x242070db, 0xc1bdceee, 0xf57c0faf, 0x4787c62a, 0xa8304613, 0xfd469501,
    0x698098d8, 0x8b44f7af, 0xffff5bb1, 0x895cd7be, 0x6b901122, 0xfd987193, 0xa679438e, 0x49b40821,
    0xf61e2562, 0xc040b340, 0x265e5a51, 0xe9b6c7aa, 0xd62f105d, 0x02441453, 0xd8a1e681, 0xe7d3fbc8,
    0x21e1cde6, 0xc33707d6, 0xf4d50d87, 0x455a14ed, 0xa9e3e905, 0xfcefa3f8, 0x676f02d9, 0x8d2a4c8a,
    0xfffa3942, 0x8771f681, 0x6d9d6122, 0xfde5380c, 0xa4beea44, 0x4bdecfa9, 0xf6bb4b60, 0xbebfbc70,
    0x289b7ec6, 0xeaa127fa, 0xd4ef3085, 0x04881d05, 0xd9d4d039, 0xe6db99e5, 0x1fa27cf8, 0xc4ac5665,
    0xf4292244, 0x432aff97, 0xab9423a7, 0xfc93a039, 0x655b59c3, 0x8f0ccc92, 0xffeff47d, 0x85845dd1,
    0x6fa87e4f, 0xfe2ce6e0, 0xa3014314, 0x4e0811a1, 0xf7537e82, 0xbd3af235, 0x2ad7d2bb, 0xeb86d391,
];

// The words w after the blocks of `first`, and then every whole block of `more`. The table is copied once, here, and lent:
// read where it is used, as a constant or a static, it makes a hash 2.4 times as slow.
pub fn after_blocks(w: Words, first: &[u8], more: &[u8]) -> Words
    ensures { result ≡ all_blocks (all_blocks w first.now) more.now }
{
    let table = SINES;
    blocks(blocks(w, first, &table), more, &table)
}

// Every whole block of s. They are cut by their places: with `chunks_exact` a hash is 1.08 times as slow.
fn blocks(w: Words, s: &[u8], t: &[u32; 64]) -> Words
    requires { t.now ≡ sines }
    ensures { result ≡ all_blocks w s.now }
{
    let mut v = w;
    for k in 0..s.len() / 64 {
        v = block(v, &s[64 * k..64 * k + 64], t);
    }
    v
}

// One block.
fn block(w: Words, s: &[u8], t: &[u32; 64]) -> Words
    requires { t.now ≡ sines }
    ensures { result ≡ compress w s.now }
{
    sum(rounds(w, &words(s), t), w)
}

// The sixteen words of a block.
fn words(s: &[u8]) -> [u32; 16]
    ensures { result ≡ words_of 16 s.now }
{
    let mut x = [0; 16];
    for (k, word) in x.iter_mut().enumerate() {
        *word = little_endian::read32(s, 4 * k);
    }
    x
}

// Each word of v plus that of w.
fn sum(v: Words, w: Words) -> Words
    ensures { result ≡ plus v w }
{
    Words {
        a: v.a.wrapping_add(w.a),
        b: v.b.wrapping_add(w.b),
        c: v.c.wrapping_add(w.c),
        d: v.d.wrapping_add(w.d),
    }
}
