// Whether one stamp is held with two bodies.
ghost use Rattle.std.specs.Prelude.{◌≡◌, not, ◌≤◌, ◌<◌, eqb, length};
ghost use Rattle.rules.specs.Tests.{both, any};
ghost use Rattle.rules.specs.Stamps.{same_body};
ghost use Rattle.rules.specs.Tables.{valley};
ghost use Rattle.rules.specs.Merge.{two_bodies};
ghost use Rattle.rows.specs.Read.{body_at};
ghost use Rattle.rows.specs.Inner.Rows.{BodyInside};
ghost use Rattle.image_run.specs.Inner.WholeRuns.{tables_of, Images};
ghost use Rattle.gather.specs.Inner.UsedTables.{other_in};
ghost use Rattle.gather.specs.Inner.Gathered.{GatheredFrom, rows_in};

use crate::held;
use crate::held::Gathered;
use image_run::walk::ImagesOf;
use rows::row;
use rows::row::RowFields;

// Whether a row was gathered, and has another body in its image than a given one has in its own. A body split otherwise into reads and writes is another.
fn is_other<'a>(image: &'a [u8], row: RowFields, first: &'a [u8], given: RowFields) -> bool
    requires { ((row.stamp ≡ 0 → ⊥) → BodyInside image.now row) × BodyInside first.now given }
    ensures { result ≡ both (not (eqb row.stamp 0)) (not (same_body (body_at first.now given.offset given.reads given.writes) (body_at image.now row.offset row.reads row.writes))) }
{
    if row.stamp == 0 {
        return false;
    }
    if row.reads != given.reads || row.writes != given.writes {
        return true;
    }
    !seek::same_bytes(row::body_of(image, row), row::body_of(first, given))
}

// Whether a table holds the stamp with another body than the row that is given.
fn some_other<'a>(run: &'a [u8], gathered: &Gathered, first: &'a [u8], given: RowFields) -> bool
    requires { Images valley run.now × (length (tables_of valley run.now) ≤ 4) × GatheredFrom run.now gathered.now × BodyInside first.now given }
    ensures { result ≡ any (other_in gathered.now.cursors.newest gathered.now.cursors.last (body_at first.now given.offset given.reads given.writes)) (tables_of valley run.now) }
{
    for (image, row) in ImagesOf::run(run).zip(&gathered.rows) {
        if is_other(image, *row, first, given) {
            return true;
        }
    }
    false
}

// Whether a stamp that is held has two bodies in the used tables of a run: then one of them is not the first one's.
pub fn two_bodies(run: &[u8], gathered: &Gathered) -> bool
    requires { Images valley run.now × (length (tables_of valley run.now) ≤ 4) × GatheredFrom run.now gathered.now × (0 < length (rows_in run.now gathered.now)) }
    ensures { result ≡ two_bodies (rows_in run.now gathered.now) }
{
    let first = held::first_of(run, gathered);
    let at = first.at;
    some_other(run, gathered, &run[at..], first.row)
}
