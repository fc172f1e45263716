// All columns for which weights of the volumes present solve the rows, by one elimination.
ghost use Rattle.std.specs.Prelude.{◌≡◌, get_or, replicate};
ghost use Rattle.parity.specs.Coefficient.{rule_of};
ghost use Rattle.elimination.specs.Reduction.{is_solvable};
ghost use Rattle.number_sets.specs.Sets.{gathered};
ghost use Rattle.volume_weights.specs.Weights.{SolvedColumns};

use crate::Columns;
use codes::Code;
use elimination::Elimination;
use number_sets::insert;

// The files of the columns for which `solve` finds weights, of `rows` volumes: each file k for which it does in column k - 1.
// The matrix takes 65,536 bytes of stack.
pub fn solved_columns(
    code: Code,
    nonempty: [u64; 4],
    present: [u64; 4],
    volumes: [u64; 4],
    rows: u8,
) -> [u64; 4]
    ensures { SolvedColumns (rule_of code) nonempty present volumes rows result }
{
    let columns = Columns::new(nonempty, present);
    let mut elimination = Elimination {
        matrix: [0u8; 65536],
        owners: [0u8; 256],
    };
    columns.eliminate(code, volumes, rows, &mut elimination);
    gathered(&columns, &elimination)
}

// The files of the columns that the elimination solves.
fn gathered(columns: &Columns, elimination: &Elimination) -> [u64; 4]
    ensures { result
        ≡ gathered (replicate 4 0) (λ p. get_or columns.now.files p 0)
        (is_solvable elimination.now.matrix elimination.now.owners) columns.now.width }
{
    let mut set = [0u64; 4];
    for (p, file) in columns.files().iter().enumerate() {
        if elimination.solvable(p as u8) {
            // by a name of its own: a call's result may not go at once into an array that the call takes
            let more = insert(set, u64::from(*file));
            set = more;
        }
    }
    set
}
