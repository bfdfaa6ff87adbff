// Where a check may end. Its rules speak only of rows above a version that was read or above the stamp, and rows rise.
ghost use Rattle.std.specs.Prelude.{◌≡◌, true};
ghost use Rattle.rules.specs.Tables.{rising};
ghost use Rattle.rules.specs.Inner.Floor.{floor_of};
ghost use Rattle.rows.specs.Inner.Places.{lower};
ghost use Rattle.checks.specs.Inner.Lent.{listed, lent_rows};

use crate::lent::{Accesses, Rows};
use rows::lookup;
use rows::lookup::Place;

// The least of the stamp and of the versions read. One old version draws it down, and then the pass is long.
#[tactic(auto, using(crate::proofs::Steps::floor_turns))]
fn floor(reads: Accesses, stamp: u64) -> u64
    ensures { result ≡ floor_of stamp (listed reads.entry) }
{
    let mut least = stamp;
    for i in 0..reads.count {
        least = least.min(reads.at(i).number);
    }
    least
}

// How many rows lie below the floor: a pass from the last row to the first ends before them. They are counted by halving, so that no row has to be asked on the way. It is put into its callers: as a call it is handed rows and accesses on the stack, which took 160 bytes more of it in an answer.
#[tactic(auto, using(crate::proofs::Steps::lower_index))]
#[inline(always)]
pub fn silent_rows(rows: Rows, reads: Accesses, stamp: u64) -> usize
    requires { rising 0 (lent_rows rows) ≡ true }
    ensures { result ≡ lower (lent_rows rows.entry) (floor_of stamp (listed reads.entry)) }
{
    let least = floor(reads, stamp);
    match lookup::find(rows.image, rows.begin, rows.count, least).found {
        Place::Held { row } | Place::Absent { row } => row,
    }
}
