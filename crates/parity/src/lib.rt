// Coefficients of files in volumes (document 01, "The parity bytes"; document 02, 2026-13). The parity that they make is defined in
// specs/.
#![tactic(auto)]

ghost use Rattle.std.specs.Prelude.{◌≡◌};
ghost use Rattle.parity.specs.Coefficient.{rule_of, coefficient_by, coefficient_answer};

use codes::Code;
use gf256::Tables;
use refusals::OUT_OF_RANGE;

// The coefficient of a file in a volume by a code (document 01: the factor), or 10 where either is out of range.
#[tactic(auto, unfolding(crate::specs::Coefficient::coefficient_answer))]
pub fn coefficient(code: Code, file: u64, volume: u64) -> Result<u8, u32>
    ensures { result ≡ coefficient_answer code file volume }
{
    if file == 0 || volume == 0 || 255 < file || 255 - file < volume {
        return Err(OUT_OF_RANGE);
    }
    Ok(coefficient_of(code, file as u8, volume as u8))
}

// The rule of the code. It answers for all bytes.
#[tactic(auto, using(crate::proofs::Coefficients::rule_by_tables))]
pub fn coefficient_of(code: Code, file: u8, volume: u8) -> u8
    ensures { result ≡ rule_of code file volume }
{
    coefficient_by(code, &Tables::new(), file, volume)
}

// The same by the tables that are lent: one look-up. By Par 1.0's rule it is the file's number to the power of the volume's less 1, and volume
// 0 has the coefficients of volume 1.
#[tactic(auto, unfolding(crate::specs::Coefficient::coefficient_by))]
pub fn coefficient_by(code: Code, tables: &Tables, file: u8, volume: u8) -> u8
    ensures { result ≡ coefficient_by code tables.now.powers tables.now.exponents file volume }
{
    match code {
        Code::Powers => tables.power(file, volume.saturating_sub(1)),
        Code::Cauchy => cauchy::cauchy_by(tables, file, volume),
    }
}
