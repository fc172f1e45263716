// The four rounds of 16 operations on a block's sixteen words (RFC 1321, 3.4).
ghost use Rattle.std.specs.Prelude.{◌≡◌, ◌<◌, ◌≤◌};
ghost use Rattle.md5_blocks.specs.Rounds.{aux, rotl as rotl_of, row, operation as operation_of, steps};

// The words A, B, C, D.
#[repr(C)]
#[derive(Clone, Copy)]
pub struct Words {
    pub a: u32,
    pub b: u32,
    pub c: u32,
    pub d: u32,
}

// All 64 operations on w, over the block's words x and the table t.
pub fn rounds(w: Words, x: &[u32; 16], t: &[u32; 64]) -> Words
    ensures { result ≡ steps t.now x.now 0 64 w }
{
    let w = round(0, w, x, t);
    let w = round(16, w, x, t);
    let w = round(32, w, x, t);
    round(48, w, x, t)
}

// Sixteen operations, from operation j on.
fn round(j: usize, w: Words, x: &[u32; 16], t: &[u32; 64]) -> Words
    requires { j ≤ 48 }
    ensures { result ≡ steps t.now x.now j 16 w }
{
    let w = four(j, w, x, t);
    let w = four(j + 4, w, x, t);
    let w = four(j + 8, w, x, t);
    four(j + 12, w, x, t)
}

// Four operations, from operation j on: [ABCD ..] [DABC ..] [CDAB ..] [BCDA ..].
fn four(j: usize, w: Words, x: &[u32; 16], t: &[u32; 64]) -> Words
    requires { j ≤ 60 }
    ensures { result ≡ steps t.now x.now j 4 w }
{
    let a = operation(j, w.a, w.b, w.c, w.d, x, t);
    let d = operation(j + 1, w.d, a, w.b, w.c, x, t);
    let c = operation(j + 2, w.c, d, a, w.b, x, t);
    let b = operation(j + 3, w.b, c, d, a, x, t);
    Words { a, b, c, d }
}

// b + ((a + f(b, c, d) + X[k] + T[i]) <<< s), with f, k, s and i those of operation j. Two sums of two are quicker than a chain of four.
fn operation(j: usize, a: u32, b: u32, c: u32, d: u32, x: &[u32; 16], t: &[u32; 64]) -> u32
    requires { j < 64 }
    ensures { result ≡ operation_of t.now x.now j a b c d }
{
    let k = word(j);
    let f = auxiliary(j / 16, b, c, d);
    let sum = a.wrapping_add(f).wrapping_add(x[k].wrapping_add(t[j]));
    b.wrapping_add(rotl(sum, shift(j)))
}

// F, G, H or I of the words x, y, z, by the number of the round, from 0.
fn auxiliary(round: usize, x: u32, y: u32, z: u32) -> u32
    ensures { result ≡ aux round x y z }
{
    match round {
        0 => (x & y) | (!x & z),
        1 => (x & z) | (y & !z),
        2 => x ^ y ^ z,
        _ => y ^ (x | !z),
    }
}

// k of operation j.
fn word(j: usize) -> usize
    requires { j < 64 }
    ensures { (result < 16) × (result ≡ (row j).k) }
{
    match j / 16 {
        0 => j,
        1 => (5 * j + 1) % 16,
        2 => (3 * j + 5) % 16,
        _ => 7 * j % 16,
    }
}

// s of operation j.
fn shift(j: usize) -> u32
    requires { j < 64 }
    ensures { result ≡ (row j).s }
{
    let shifts = match j / 16 {
        0 => [7, 12, 17, 22],
        1 => [5, 9, 14, 20],
        2 => [4, 11, 16, 23],
        _ => [6, 10, 15, 21],
    };
    shifts[j % 4]
}

// x rotated to the left by s bits.
fn rotl(x: u32, s: u32) -> u32
    requires { (0 < s) × (s < 32) }
    ensures { result ≡ rotl_of x s }
{
    x.rotate_left(s)
}
