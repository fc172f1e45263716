// Marks as numbers: 0, or another number where the mark is set.
ghost use Rattle.std.specs.Prelude.{◌≡◌};
ghost use Rattle.job_bytes.specs.Marks.{mark_of, is_marked, name_mark, name_marked};

use list_scan::NameSoFar;

// 1 where a mark is set, else 0.
pub fn mark(set: bool) -> u64
    ensures { result ≡ mark_of set }
{
    if set { 1 } else { 0 }
}

// Whether the number is a mark that is set.
pub fn is_marked(number: u64) -> bool
    ensures { result ≡ is_marked number }
{
    number != 0
}

// The two marks of a name so far, as one number.
pub fn name_mark(named: NameSoFar) -> u64
    ensures { result ≡ name_mark named }
{
    mark(named.allowed) + 2 * mark(named.dots)
}

// The two marks in a number.
pub fn name_marked(number: u64) -> NameSoFar
    ensures { result ≡ name_marked number }
{
    NameSoFar {
        allowed: number % 2 == 1,
        dots: number / 2 % 2 == 1,
    }
}
