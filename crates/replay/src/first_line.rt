// The first line of a log: the number of files, and their sizes.
ghost use Rattle.std.specs.Prelude.{◌≡◌, false, MatchOption};
ghost use Rattle.replay.specs.Log.{is_first_line};
ghost use Rattle.replay.specs.FirstLine.{NumbersRead, opened_line};

use codes::Code;
use inventory::Inventory;
use refusals::{EVENT, MAX_FILES, OUT_OF_RANGE};
use text::{is_decimal, value_of};

// The most numbers that an accepted first line has: the number of files, and a size of each.
const MOST: usize = MAX_FILES as usize + 1;

// What opening by a first line gives: 28 for a line of another shape.
pub fn open_line(line: &[u8]) -> Result<Inventory, u32>
    ensures { result ≡ opened_line line.now }
{
    let Some(numbers) = read_numbers(line) else {
        return Err(EVENT);
    };
    let count = numbers.count;
    if MOST < count {
        return Err(OUT_OF_RANGE);
    }
    let values = numbers.values;
    Inventory::open(Code::Powers, values[0], &values[1..count]).map_err(|refused| refused.number)
}

// The numbers of a line: how many there are, and the first of them, each cut to 64 bits. The library has no heap (a rule of the project), so
// their count stands beside a buffer of fixed size.
#[derive(Clone, Copy)]
struct Numbers {
    count: usize,
    values: [u64; 255],
}

// The numbers of a line, or none if a word is no number.
fn read_numbers(line: &[u8]) -> Option<Numbers>
    ensures { MatchOption result (is_first_line line.now ≡ false) (λ r. NumbersRead line.now r) }
{
    let mut values = [0u64; 255];
    let mut count: usize = 0;
    for word in line.split(|b| *b == b' ') {
        if !is_decimal(word) {
            return None;
        }
        if count < MOST {
            values[count] = value_of(word);
        }
        count += 1;
    }
    Some(Numbers { count, values })
}
