// Weights of the volumes present that bring a missing file back (document 01, "The sheet": the recipe), and what the files present
// then weigh. The rule of the coefficients is that of the code, `parity::coefficient_by`.
#![tactic(auto)]

ghost use Rattle.std.specs.Prelude.{◌≡◌, suc, ◌+◌, ◌<◌, ◌==◌, false, true, get_or, take, replicate, position, MatchOption, IfSome, length};
ghost use Rattle.computed_tests.specs.Lists.{list_below};
ghost use Rattle.mul_add.specs.MulAdd.{mul_add};
ghost use Rattle.elimination.specs.Reduction.{with_diagonal};
ghost use Rattle.parity.specs.Coefficient.{rule_of};
ghost use Rattle.volume_weights.specs.Weights.{row_of, volumes_added, Solved, file_weight};
ghost use Rattle.volume_weights.specs.Weights.{column_in, IsColumns, renumbered, numbers_to};

mod solved;

use codes::Code;
use elimination::Elimination;
use gf256::Tables;
use number_sets::has;
use parity::coefficient_by;
pub use solved::solved_columns;

// Weights of the volumes present, of `rows` volumes, that sum their coefficients to 1 in this column and to 0 in the others, by volume
// number; none where no weights do. The columns are the files of size 1 or more that are not present, file k in column k - 1; the
// elimination takes them side by side. Its matrix takes 65,536 bytes of stack.
pub fn solve(
    code: Code,
    nonempty: [u64; 4],
    present: [u64; 4],
    volumes: [u64; 4],
    rows: u8,
    column: u8,
) -> Option<[u8; 256]>
    ensures { MatchOption result
        (Solved (rule_of code) nonempty present volumes rows column (replicate 256 0) false)
        (λ weights. Solved (rule_of code) nonempty present volumes rows column weights true) }
{
    let columns = Columns::new(nonempty, present);
    let at = columns.place(column)? as u8;
    let mut elimination = Elimination {
        matrix: [0u8; 65536],
        owners: [0u8; 256],
    };
    columns.eliminate(code, volumes, rows, &mut elimination);
    if elimination.solvable(at) {
        Some(elimination.weights(at))
    } else {
        None
    }
}

// The columns side by side: their files in ascending order, and how many they are. What stands past them means nothing.
#[derive(Clone, Copy)]
struct Columns {
    files: [u8; 256],
    width: u8,
}

impl Columns {
    fn new(nonempty: [u64; 4], present: [u64; 4]) -> Columns
        ensures { IsColumns nonempty present result.files result.width }
    {
        let mut files = [0u8; 256];
        let mut width: u8 = 0;
        for i in 0..255 {
            files[usize::from(width)] = i + 1;
            width += u8::from(is_column(nonempty, present, i + 1));
        }
        Columns { files, width }
    }

    // The files of the columns, without what stands past them.
    fn files(&self) -> &[u8]
        ensures is { result.now ≡ take self.now.width self.now.files }
        ensures long { length result.now ≡ self.now.width }
    {
        &self.files[..usize::from(self.width)]
    }

    // Where a column stands among the columns.
    fn place(&self, column: u8) -> Option<usize>
        ensures searched { result ≡ position (λ file. file == column + 1) (take self.now.width self.now.files) }
        ensures inside { IfSome result (λ at. at < self.now.width) }
    {
        self.files()
            .iter()
            .position(|file| u16::from(*file) == u16::from(column) + 1)
    }

    // Eliminates the rows of the volumes present, of the first `rows`.
    fn eliminate(&self, code: Code, volumes: [u64; 4], rows: u8, elimination: &mut Elimination)
        requires matrix { elimination.old.matrix ≡ replicate 65536 0 }
        requires owners { elimination.old.owners ≡ replicate 256 0 }
        ensures { (elimination.new.matrix, elimination.new.owners)
            ≡ volumes_added (renumbered (rule_of code) self.now.files) (numbers_to self.now.width) (replicate 4 0) volumes rows
            (with_diagonal 256 (replicate 65536 0), replicate 256 0) }
    {
        elimination.set_diagonal();
        for v in 0..rows {
            let volume = v + 1;
            if has(volumes, u64::from(volume)) {
                let row = self.row(code, volume);
                elimination.add_row(self.width, &row, volume);
            }
        }
    }

    // The coefficients of the columns in a volume, side by side.
    fn row(&self, code: Code, volume: u8) -> [u8; 256]
        ensures { result
            ≡ row_of (renumbered (rule_of code) self.now.files) (numbers_to self.now.width) (replicate 4 0) volume }
    {
        let tables = Tables::new();
        let mut row = [0u8; 256];
        for (p, file) in self.files().iter().enumerate() {
            row[p] = coefficient_by(code, &tables, *file, volume);
        }
        row
    }
}

// Whether a file is a column: of size 1 or more, and not present.
fn is_column(nonempty: [u64; 4], present: [u64; 4], file: u8) -> bool
    ensures { result ≡ column_in nonempty present file }
{
    let file = u64::from(file);
    has(nonempty, file) && !has(present, file)
}

// The weights of the files present, by file number less 1: the sum, over the first `rows` volumes, of weight times coefficient; 0 for
// a file that is not present.
pub fn file_weights(code: Code, present: [u64; 4], rows: u8, weights: &[u8; 256]) -> [u8; 255]
    ensures { result ≡ list_below 255 (file_weight (rule_of code) present weights.now rows) }
{
    let mut sums = [0u8; 255];
    for v in 0..rows {
        add_terms(code, present, weights[usize::from(v) + 1], v + 1, &mut sums);
    }
    sums
}

// Adds a weight times the coefficient in a volume of each file present. A weight of 0 takes no time.
fn add_terms(code: Code, present: [u64; 4], weight: u8, volume: u8, sums: &mut [u8; 255])
    ensures { sums.new ≡ mul_add weight (row_of (rule_of code) present (replicate 4 0) volume) sums.old }
{
    if weight != 0 {
        let row = present_row(code, present, volume);
        mul_add::mul_add(weight, &row, sums);
    }
}

// The coefficients of the files present in a volume, file k in place k - 1.
fn present_row(code: Code, present: [u64; 4], volume: u8) -> [u8; 256]
    ensures { result ≡ row_of (rule_of code) present (replicate 4 0) volume }
{
    let tables = Tables::new();
    let mut row = [0u8; 256];
    for i in 0..255 {
        let file = i + 1;
        if has(present, u64::from(file)) {
            row[usize::from(i)] = coefficient_by(code, &tables, file, volume);
        }
    }
    row
}
