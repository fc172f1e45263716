// Sets of numbers below 256, one bit each: number k is bit k mod 64 of word k div 64. A set stays four bare words and no struct of its own, since
// document 01 has sets as words and the claims on them, from recovery specs/Answers to replay specs/Replay, speak of its list of words.
#![tactic(auto)]

ghost use Rattle.std.specs.Prelude.{◌≡◌, length};
ghost use Rattle.computed_tests.specs.Numbers.{one_to};
ghost use Rattle.number_sets.specs.Sets.{member, inserted, removed, size_below, within, apart};

// Whether a number is in the set.
pub fn has(set: [u64; 4], k: u64) -> bool
    ensures { result ≡ member set k }
{
    k < 256 && (set[(k / 64) as usize] >> (k % 64)) & 1 == 1
}

// The set with a number more, where it is below 256.
pub fn insert(mut set: [u64; 4], k: u64) -> [u64; 4]
    ensures { result ≡ inserted k set }
{
    if k < 256 {
        set[(k / 64) as usize] |= 1 << (k % 64);
    }
    set
}

// The set without a number.
pub fn remove(mut set: [u64; 4], k: u64) -> [u64; 4]
    ensures { result ≡ removed k set }
{
    if k < 256 {
        set[(k / 64) as usize] &= !(1 << (k % 64));
    }
    set
}

// How many numbers are in the set.
pub fn size(set: [u64; 4]) -> u32
    ensures { result ≡ size_below 256 (member set) }
{
    ones(&set)
}

// How many bits of four words are set. It borrows them, since what a slice holds is known to be words of 64 bits.
fn ones(words: &[u64]) -> u32
    requires { length words.now ≡ 4 }
    ensures { result ≡ size_below 256 (member words.now) }
{
    words.iter().map(|word| word.count_ones()).sum()
}

// Whether k is one of 1 to m.
pub fn one_to(m: u64, k: u64) -> bool
    ensures { result ≡ one_to m k }
{
    (1..=m).contains(&k)
}

// Whether each number of the set is one of 1 to m.
pub fn within(m: u64, set: [u64; 4]) -> bool
    ensures { result ≡ within m set }
{
    (0..256).all(|k| !has(set, k) || one_to(m, k))
}

// Whether no number is in both sets.
pub fn apart(a: [u64; 4], b: [u64; 4]) -> bool
    ensures { result ≡ apart a b }
{
    (0..256).all(|k| !(has(a, k) && has(b, k)))
}
