// Arithmetic of bytes as elements of the field with 256 elements (document 01, "The parity bytes").
// The sum is the language's exclusive or; products and powers go by tables.
#![tactic(auto)]

ghost use Rattle.std.specs.Prelude.{◌≡◌};
ghost use Rattle.gf256.specs.Answer.{inverse_answer};
ghost use Rattle.gf256.specs.Field.{product, power};

mod tables;

pub use tables::Tables;

// The product of a and b.
#[tactic(auto, using(crate::proofs::TableLaws::product_by_tables))]
pub fn product(a: u8, b: u8) -> u8
    ensures { result ≡ product a b }
{
    Tables::new().product(a, b)
}

// a to the power n.
#[tactic(auto, using(crate::proofs::TableLaws::power_by_tables))]
pub fn power(a: u8, n: u8) -> u8
    ensures { result ≡ power a n }
{
    Tables::new().power(a, n)
}

// The inverse of a, refused with 10 for 0. Each other byte to the power 255 is 1, so its inverse is its power 254.
pub fn inverse(a: u8) -> Result<u8, u32>
    ensures { result ≡ inverse_answer a }
{
    if a == 0 {
        return Err(refusals::OUT_OF_RANGE);
    }
    Ok(power(a, 254))
}
