// Elimination by columns over the bytes as a field, one row at a time.
//
// The state is a square matrix of 256 rows and columns, the identity at first, and an owner for each column: 0, or the
// number of a row. Rows are numbered 1, 2, .. in the order in which they come; a row of zeros may be left out. Where n
// columns are wanted, the others are 0 in each row, and a row takes the time of n columns, rounded up to blocks of 16. The
// matrix takes 65,536 bytes of the caller's stack.
#![tactic(auto)]

ghost use Rattle.std.specs.Prelude.{◌≡◌, ℕ, ◌+◌, ◌<◌, ◌≤◌, length, get_or, position, not, ◌&&◌, ◌==◌, IfSome};
ghost use Rattle.std.specs.List.{zip};
ghost use Rattle.computed_tests.specs.Lists.{list_below};
ghost use Rattle.gf256.specs.Tables.{IsTables};
ghost use Rattle.elimination.specs.Reduction.{entry, with_diagonal, is_solvable, weight_of};
ghost use Rattle.elimination.specs.Reduction.{in_blocks, row_product_within, swept_within, row_added_within};

use gf256::Tables;
use mul_add::mul_add_by;

// The matrix, row by row, and the owners of its columns. It is made where it stands and never copied, for its size.
#[derive(Drop)]
pub struct Elimination {
    pub matrix: [u8; 65536],
    pub owners: [u8; 256],
}

impl Elimination {
    // Sets the diagonal to 1: makes the identity of a matrix of zeros.
    #[tactic(auto, using(crate::proofs::Steps::diagonal_more), unfolding(crate::specs::Reduction::with_diagonal))]
    pub fn set_diagonal(&mut self)
        ensures matrix { self.new.matrix ≡ with_diagonal 256 self.old.matrix }
        ensures owners { self.new.owners ≡ self.old.owners }
    {
        for i in 0..256 {
            self.matrix[i * 256 + i] = 1;
        }
    }

    // Takes one row more, of this width in whole blocks. It is a sum of multiples of earlier rows where its product with the matrix is 0 in
    // each column that has no owner; otherwise it becomes the owner of the first such column where it is not.
    pub fn add_row(&mut self, width: u8, row: &[u8; 256], number: u8)
        ensures { (self.new.matrix, self.new.owners)
            ≡ row_added_within (in_blocks width) row.now number self.old.matrix self.old.owners }
    {
        let tables = Tables::new();
        let width = in_blocks(width);
        let mut y = row_times(&tables, width, row, &self.matrix);
        if let Some(k) = pivot(&y[..width], &self.owners) {
            let scale = tables.power(y[k], 254);
            y[k] ^= 1;
            sweep(&tables, width, &mut self.matrix, &y, k, scale);
            self.owners[k] = number;
        }
    }

    // Whether weights of the rows sum them to 1 in this column and to 0 in the others.
    pub fn solvable(&self, column: u8) -> bool
        ensures { result ≡ is_solvable self.now.matrix self.now.owners column }
    {
        pivot(self.row(column), &self.owners).is_none()
    }

    // These weights, by the numbers of the rows; what stands at 0 means nothing.
    pub fn weights(&self, column: u8) -> [u8; 256]
        ensures { result ≡ list_below 256 (weight_of self.now.matrix self.now.owners column) }
    {
        let row = self.row(column);
        let mut weights = [0u8; 256];
        for (k, owner) in self.owners.iter().enumerate() {
            weights[usize::from(*owner)] ^= row[k];
        }
        weights
    }

    // A row of the matrix.
    fn row(&self, i: u8) -> &[u8]
        ensures long { length result.now ≡ 256 }
        ensures entries { (j : ℕ) → j < 256 → get_or result.now j 0 ≡ entry self.now.matrix i j }
    {
        let from = usize::from(i) * 256;
        &self.matrix[from..from + 256]
    }
}

// A width in whole blocks of 16 columns, which the compiler takes at a time.
#[tactic(auto, unfolding(crate::specs::Reduction::in_blocks))]
fn in_blocks(width: u8) -> usize
    ensures is { result ≡ in_blocks width }
    ensures most { result ≤ 256 }
{
    usize::from(width).next_multiple_of(16)
}

// The product of a row and the matrix, as far as the width.
fn row_times(tables: &Tables, width: usize, row: &[u8; 256], matrix: &[u8; 65536]) -> [u8; 256]
    requires tables { IsTables tables.now }
    requires width { width ≤ 256 }
    ensures { (j : ℕ) → j < width → get_or result j 0 ≡ row_product_within width row.now matrix.now j }
{
    let mut sum = [0u8; 256];
    for i in 0..width {
        let from = i * 256;
        mul_add_by(tables, row[i], &matrix[from..from + width], &mut sum);
    }
    sum
}

// The first column that has no owner in which the row is not 0.
fn pivot(row: &[u8], owners: &[u8; 256]) -> Option<usize>
    requires { length row.now ≤ 256 }
    ensures searched { result ≡ position (λ p. (p.1 == 0) && not (p.0 == 0)) (zip row.now owners.now) }
    ensures inside { IfSome result (λ k. k < length row.now) }
{
    row.iter()
        .zip(owners)
        .position(|(x, owner)| *owner == 0 && *x != 0)
}

// Adds to each row of the matrix, as far as the width, y times `scale` times the row's entry in column k.
fn sweep(
    tables: &Tables,
    width: usize,
    matrix: &mut [u8; 65536],
    y: &[u8; 256],
    k: usize,
    scale: u8,
)
    requires tables { IsTables tables.now }
    requires width { width ≤ 256 }
    requires inside { k < width }
    ensures { matrix.new ≡ swept_within width (λ j. get_or y.now j 0) k scale matrix.old }
{
    for r in 0..width {
        let from = r * 256;
        let weight = tables.product(scale, matrix[from + k]);
        mul_add_by(tables, weight, y, &mut matrix[from..from + width]);
    }
}
