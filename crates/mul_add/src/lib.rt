// The addition of a multiple of a fragment to a buffer (document 01, "The parity bytes": folding).
#![tactic(auto)]

ghost use Rattle.std.specs.Prelude.{◌≡◌, ◌*◌, get_or};
ghost use Rattle.gf256.specs.Polynomial.{coeff, sum_below};
ghost use Rattle.mul_add.specs.MulAdd.{mul_add, mul_add_by, add_multiples};

use gf256::Tables;

// Adds weight times the fragment to the buffer, byte by byte, as far as both go (document 01: folding).
#[tactic(auto, using(crate::proofs::Multiples::by_tables))]
pub fn mul_add(weight: u8, fragment: &[u8], buffer: &mut [u8])
    ensures { buffer.new ≡ mul_add weight fragment.now buffer.old }
{
    mul_add_by(&Tables::new(), weight, fragment, buffer)
}

// The same by the tables that are lent. A weight of 0 takes no time. The multiples of another are eight powers in a row.
#[tactic(auto, using(crate::proofs::Multiples::eight_in_a_row), unfolding(crate::specs::MulAdd::mul_add_by))]
pub fn mul_add_by(tables: &Tables, weight: u8, fragment: &[u8], buffer: &mut [u8])
    ensures { buffer.new
        ≡ mul_add_by tables.now.powers tables.now.exponents weight fragment.now buffer.old }
{
    if weight != 0 {
        let from = usize::from(tables.exponents[usize::from(weight)]);
        let powers = &tables.powers;
        let multiples = [
            powers[from],
            powers[from + 1],
            powers[from + 2],
            powers[from + 3],
            powers[from + 4],
            powers[from + 5],
            powers[from + 6],
            powers[from + 7],
        ];
        add_multiples(&multiples, fragment, buffer);
    }
}

// Adds to each byte of the buffer the multiples at the places of the bits of the fragment's byte. They are lent, and were read one by one:
// filled by copy_from_slice and handed over by value they made a mul_add of 128 bytes 1.05 times as slow, and one of 15 bytes 1.3 times. By an
// index: of what is written through a zip a proof knows nothing.
#[tactic(auto, using(crate::proofs::Steps::add_multiples_none, crate::proofs::Steps::add_multiples_more, crate::proofs::Steps::add_multiples_all))]
fn add_multiples(multiples: &[u8; 8], fragment: &[u8], buffer: &mut [u8])
    ensures { buffer.new ≡ add_multiples multiples.now fragment.now buffer.old }
{
    for p in 0..fragment.len().min(buffer.len()) {
        buffer[p] ^= combine(multiples, fragment[p]);
    }
}

// The sum of the multiples at the places of the bits of x: eight choices, with no table and no branch between them. In this form the
// compiler takes many bytes at a time.
fn combine(multiples: &[u8; 8], x: u8) -> u8
    ensures { result ≡ sum_below 8 (λ i. coeff x i * get_or multiples.now i 0) }
{
    if_high(x << 7, multiples[0])
        ^ if_high(x << 6, multiples[1])
        ^ if_high(x << 5, multiples[2])
        ^ if_high(x << 4, multiples[3])
        ^ if_high(x << 3, multiples[4])
        ^ if_high(x << 2, multiples[5])
        ^ if_high(x << 1, multiples[6])
        ^ if_high(x, multiples[7])
}

// c where the highest bit of x is set, else 0.
#[tactic(auto, using(crate::proofs::Bits::high_clear, crate::proofs::Bits::high_set))]
fn if_high(x: u8, c: u8) -> u8
    ensures { result ≡ coeff x 7 * c }
{
    if x < 128 { 0 } else { c }
}
