// Where two byte slices differ and where they agree.
ghost use Rattle.std.specs.Prelude.{◌≡◌, false, not, ℕ, ◌+◌, ◌<◌, ◌≤◌, max, length, get_or};
ghost use Rattle.comparing.specs.Runs.{differs, FirstFrom};

// How many bytes are compared at a time where nothing differs: a loop over a block has no exit, so that the compiler takes 16 bytes at once.
const BLOCK: usize = 256;

// The first place from `from` on at which `a` and `b` differ; the length of the longer one, or more, where there is none.
pub(crate) fn difference_from(a: &[u8], b: &[u8], from: usize) -> usize
    ensures { FirstFrom (differs a.now b.now) (max (length a.now) (length b.now)) from result }
{
    let common = a.len().min(b.len());
    let start = equal_blocks(a, b, from);
    for p in start..common {
        if a[p] != b[p] {
            return p;
        }
    }
    start.max(common)
}

// The first place from `from` on at which `a` and `b` agree; the length of the longer one where there is none.
pub(crate) fn agreement_from(a: &[u8], b: &[u8], from: usize) -> usize
    requires { from ≤ max (length a.now) (length b.now) }
    ensures { (result ≤ max (length a.now) (length b.now))
        × FirstFrom (λ p. not (differs a.now b.now p)) (max (length a.now) (length b.now)) from result }
{
    let common = a.len().min(b.len());
    for p in from..common {
        if a[p] == b[p] {
            return p;
        }
    }
    a.len().max(b.len())
}

// A place from `from` on before which, from there, `a` and `b` agree: the start of the first block that differs, or of what is no whole block. By a
// place, which is the answer.
fn equal_blocks(a: &[u8], b: &[u8], from: usize) -> usize
    ensures { (from ≤ result) × ((p : ℕ) → p < result → from ≤ p → differs a.now b.now p ≡ false) }
{
    let common = a.len().min(b.len());
    let mut at = from;
    while at < common {
        if common - at < BLOCK {
            return at;
        }
        if block_differs(a, b, at) != 0 {
            return at;
        }
        at += BLOCK;
    }
    at
}

// 0 where the blocks of `a` and `b` at `at` agree.
fn block_differs(a: &[u8], b: &[u8], at: usize) -> u8
    requires { (at + 256 ≤ length a.now) × (at + 256 ≤ length b.now) }
    ensures { result ≡ 0 → (p : ℕ) → p < at + 256 → at ≤ p → get_or a.now p 0 ≡ get_or b.now p 0 }
{
    let mut found: u8 = 0;
    for i in 0..BLOCK {
        if a[at + i] != b[at + i] {
            found = 1;
        }
    }
    found
}
