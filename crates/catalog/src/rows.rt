// The rows of a catalog, as they lie in its bytes.
ghost use Rattle.std.specs.Prelude.{◌≡◌, ◌+◌, ◌*◌, ◌≤◌, length, drop};
ghost use Rattle.catalog.specs.Rows.{number_of, size_of};
ghost use Rattle.catalog.specs.Catalog.{rows_in};

use crate::ROW_LENGTH;

// The `count` rows from `at` on.
pub(crate) fn rows_at(bytes: &[u8], at: usize, count: usize) -> &[[u8; ROW_LENGTH]]
    requires { at + 28 * count ≤ length bytes.now }
    ensures { result.now ≡ rows_in count (drop at bytes.now) }
{
    let (rows, _) = bytes[at..].as_chunks();
    &rows[..count]
}

// The number of a row.
pub(crate) fn number_of(row: &[u8; ROW_LENGTH]) -> u64
    ensures { result ≡ number_of row.now }
{
    u64::from(little_endian::read32(row, 0))
}

// The size that a row tells.
pub(crate) fn size_of(row: &[u8; ROW_LENGTH]) -> u64
    ensures { result ≡ size_of row.now }
{
    little_endian::read64(row, 4)
}
