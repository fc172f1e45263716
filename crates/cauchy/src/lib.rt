// Cauchy coefficients of files in volumes (document 02, 2026-13). The calls for a coefficient are those of crate `parity`.
#![tactic(auto)]

ghost use Rattle.std.specs.Prelude.{◌≡◌};
ghost use Rattle.cauchy.specs.Cauchy.{cauchy_by};

use gf256::Tables;

// The inverse of the file's number exclusive-or 256 less the volume's, by the tables that are lent: one look-up. An inverse is the
// power 254. It answers for all bytes.
#[tactic(auto, unfolding(crate::specs::Cauchy::cauchy_by))]
pub fn cauchy_by(tables: &Tables, file: u8, volume: u8) -> u8
    ensures { result ≡ cauchy_by tables.now.powers tables.now.exponents file volume }
{
    tables.power(file ^ volume.wrapping_neg(), 254)
}
