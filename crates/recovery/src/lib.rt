// Whether a missing file comes back, and by which weights (document 01, "The sheet": ask; document 02, 2026-11), of sets of files and volumes.
#![tactic(auto)]

ghost use Rattle.std.specs.Prelude.{◌≡◌, List, ℕ, MatchOption, true, false, suc, ◌≤◌, length};
ghost use Rattle.number_sets.specs.Sets.{gathered};
ghost use Rattle.parity.specs.Coefficient.{rule_of};
ghost use Rattle.recovery.specs.Answers.{Found, Written, Answers, is_empty, Gathered};

use codes::Code;
use number_sets::{has, insert};
use refusals::NO_ROOM;
use volume_weights::{file_weights, solved_columns};

// The number of weights: one for each file and each volume.
const WEIGHTS: usize = 255;

// What is known of a file; where it is recoverable its weights are in the lent bytes.
#[derive(Clone, Copy, Debug, PartialEq, Eq)]
pub enum Answer {
    Present,
    Recoverable,
    Undetermined,
    Refused(u32),
}

// What is present of n files and their volumes of this code: of the files those of the set `files`, while those of `nonempty` are of size 1 or
// more, present or not; `volumes` are the volumes present.
#[derive(Clone, Copy)]
pub struct Holdings {
    pub code: Code,
    pub n: u8,
    pub files: [u64; 4],
    pub volumes: [u64; 4],
    pub nonempty: [u64; 4],
}

impl Holdings {
    // What is known of the file of a column, file k in column k - 1, tested in the order 13, 12, 14. Where it is recoverable, its weights become
    // the first 255 lent bytes. The matrix of its elimination takes 65,536 bytes of stack.
    pub fn query(self, column: u8, out: &mut [u8]) -> Answer
        ensures { Answers (rule_of self.code) self.n self.files self.volumes self.nonempty column out.old result out.new }
    {
        if has(self.files, u64::from(column) + 1) {
            return Answer::Present;
        }
        let Some(weights) = self.solve(column) else {
            return Answer::Undetermined;
        };
        if out.len() < WEIGHTS {
            return Answer::Refused(NO_ROOM);
        }
        self.write(&weights, out);
        Answer::Recoverable
    }

    // The missing files that are recoverable, empty ones too. The matrix of the elimination takes 65,536 bytes of stack.
    pub fn recoverable_files(self) -> [u64; 4]
        ensures { Gathered (rule_of self.code) self.n self.files self.volumes self.nonempty result }
    {
        let solved = solved_columns(
            self.code,
            self.nonempty,
            self.files,
            self.volumes,
            255 - self.n,
        );
        self.with_empty(solved)
    }

    // Weights of the volumes present that bring the file of a column back. An empty file needs none.
    fn solve(self, column: u8) -> Option<[u8; 256]>
        ensures { MatchOption result
            ((ws : List ℕ) × Found (rule_of self.code) self.n self.files self.volumes self.nonempty column false ws)
            (λ ws. Found (rule_of self.code) self.n self.files self.volumes self.nonempty column true ws) }
    {
        let Holdings {
            code,
            n,
            files,
            volumes,
            nonempty,
        } = self;
        if !has(nonempty, u64::from(column) + 1) {
            return Some([0u8; 256]);
        }
        volume_weights::solve(code, nonempty, files, volumes, 255 - n, column)
    }

    // Writes the weights of the files, then those of the volumes. By `put`: `copy_from_slice` into lent bytes wants `memmove` of the C library,
    // and the library wants `memcpy` and `memset` only (include/par1.h).
    fn write(self, weights: &[u8; 256], out: &mut [u8])
        requires { 255 ≤ length out.old }
        ensures { Written (rule_of self.code) self.n self.files weights.now out.old out.new 255 }
    {
        let sums = file_weights(self.code, self.files, 255 - self.n, weights);
        let n = usize::from(self.n);
        lent_bytes::put(out, 0, &sums[..n]);
        lent_bytes::put(out, n, &weights[1..256 - n]);
    }

    // The set with the missing files that are empty.
    fn with_empty(self, mut set: [u64; 4]) -> [u64; 4]
        ensures { result ≡ gathered set suc (is_empty self.files self.nonempty) self.n }
    {
        for i in 0..self.n {
            let file = u64::from(i) + 1;
            if !has(self.files, file) && !has(self.nonempty, file) {
                // through a name of its own: the borrow checker lays no call's result straight in a variable that is an array
                let more = insert(set, file);
                set = more;
            }
        }
        set
    }
}
