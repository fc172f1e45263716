// Inventories in lent bytes: 18 numbers of 64 bits. What is left to answer is a number, as C gets it.
#![tactic(auto)]

ghost use Rattle.std.specs.Prelude.{◌≡◌, [], ◌∷◌, length};
ghost use Rattle.inventory.specs.Steps.{open_step, handed_back, count_reply, answer_number};
ghost use Rattle.little_endian.specs.Bytes.{numbers as numbers_of, numbers_at};
ghost use Rattle.inventory_bytes.specs.Inventories.{inventory_of, inventory_bytes, opened_by, stored, counted_into};

use codes::Code;
use inventory::{Answer, Counts, Inventory, Refused, refused_opening, zeros};
use lent_bytes::write;
use little_endian::{read_numbers, read64, write_numbers};
use refusals::{MAX_FILES, OUT_OF_RANGE, PRESENT, UNDETERMINED};

// The length of an inventory, in bytes.
pub const LENGTH: usize = 144;

// The length of a count, in bytes.
const COUNT_LENGTH: usize = 24;

// The greatest number of files.
const MOST_FILES: usize = MAX_FILES as usize;

// Opens an inventory for volumes of this code, of n files with the sizes in these bytes.
pub fn opened(code: Code, n: u64, sizes: &[u8]) -> Result<Inventory, Refused>
    ensures { result ≡ handed_back (opened_by code n sizes.now) }
{
    let count = n as usize;
    if MOST_FILES < count {
        return Err(refused_opening(OUT_OF_RANGE));
    }
    if sizes.len() != 8 * count {
        return Err(refused_opening(OUT_OF_RANGE));
    }
    let mut numbers = [0u64; MOST_FILES];
    opened_by(code, n, sizes, &mut numbers[..count])
}

// Opens an inventory of n files with as many sizes as are to be read into `numbers`.
fn opened_by(code: Code, n: u64, sizes: &[u8], numbers: &mut [u64]) -> Result<Inventory, Refused>
    ensures { result ≡ handed_back (open_step code n (numbers_at (length numbers.old) sizes.now 0)) }
{
    read_numbers(sizes, 0, numbers);
    Inventory::open(code, n, numbers)
}

// The inventory that the bytes are; zeros where they are not 144, or their code is none.
pub fn loaded(bytes: &[u8]) -> Inventory
    ensures { result ≡ inventory_of bytes.now }
{
    if bytes.len() != LENGTH {
        return zeros();
    }
    let Ok(code) = Code::try_from(read64(bytes, 136)) else {
        return zeros();
    };
    let files = four_at(bytes, 8);
    let volumes = four_at(bytes, 40);
    let nonempty = four_at(bytes, 72);
    let quarantined = four_at(bytes, 104);
    Inventory {
        n: read64(bytes, 0),
        files,
        volumes,
        nonempty,
        quarantined,
        code,
    }
}

// Four numbers of the bytes, from `at` on.
fn four_at(bytes: &[u8], at: usize) -> [u64; 4]
    ensures { result ≡ numbers_at 4 bytes.now at }
{
    let mut numbers = [0u64; 4];
    read_numbers(bytes, at, &mut numbers);
    numbers
}

// The inventory that a call hands back over the first bytes of `out`, and 0; or the number of the refusal.
pub fn store(outcome: Result<Inventory, Refused>, out: &mut [u8]) -> u32
    ensures { (result, out.new) ≡ stored outcome out.old }
{
    match outcome {
        Ok(next) => {
            let bytes = bytes_of(next);
            write(out, &bytes)
        }
        Err(refused) => refused.number,
    }
}

// The inventory's 18 numbers.
fn bytes_of(inventory: Inventory) -> [u8; LENGTH]
    ensures { result ≡ inventory_bytes inventory }
{
    let n = [inventory.n];
    let files = inventory.files;
    let volumes = inventory.volumes;
    let nonempty = inventory.nonempty;
    let quarantined = inventory.quarantined;
    let number = [u64::from(inventory.code)];
    let mut bytes = [0u8; LENGTH];
    write_numbers(&mut bytes, 0, &n);
    write_numbers(&mut bytes, 8, &files);
    write_numbers(&mut bytes, 40, &volumes);
    write_numbers(&mut bytes, 72, &nonempty);
    write_numbers(&mut bytes, 104, &quarantined);
    write_numbers(&mut bytes, 136, &number);
    bytes
}

// The three numbers of a count over the first bytes of `out`, and 0; or the number of the refusal.
pub fn store_count(counted: Result<Counts, u32>, out: &mut [u8]) -> u32
    ensures { (result, out.new) ≡ counted_into (count_reply counted) out.old }
{
    match counted {
        Ok(counts) => {
            let bytes = bytes_of_count(counts);
            write(out, &bytes)
        }
        Err(number) => number,
    }
}

// The three numbers of a count.
fn bytes_of_count(counts: Counts) -> [u8; COUNT_LENGTH]
    ensures { result ≡ numbers_of (counts.files ∷ counts.volumes ∷ counts.quarantined ∷ []) }
{
    let numbers = [
        u64::from(counts.files),
        u64::from(counts.volumes),
        u64::from(counts.quarantined),
    ];
    let mut bytes = [0u8; COUNT_LENGTH];
    write_numbers(&mut bytes, 0, &numbers);
    bytes
}

// The document's number of an answer.
pub fn answer_number(answer: Answer) -> u32
    ensures { result ≡ answer_number answer }
{
    match answer {
        Answer::Present => PRESENT,
        Answer::Recoverable => 0,
        Answer::Undetermined => UNDETERMINED,
        Answer::Refused(number) => number,
    }
}
