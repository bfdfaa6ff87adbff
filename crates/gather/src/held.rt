// The rows of one stamp, gathered once from the tables of a run.
ghost use Rattle.std.specs.Prelude.{◌≡◌, cond, ◌+◌, ◌^◌, ◌≤◌, ◌<◌, eqb, length, drop};
ghost use Rattle.rules.specs.Tables.{valley};
ghost use Rattle.rules.specs.Merge.{stamps};
ghost use Rattle.table.specs.Images.{format_one};
ghost use Rattle.table.specs.Parse.{table_at, BeginsWithImage};
ghost use Rattle.image_run.specs.Inner.WholeRuns.{tables_of, Images};
ghost use Rattle.gather.specs.Inner.UsedTables.{used_of, place_in, no_fields, fields_for, from_first};
ghost use Rattle.gather.specs.Inner.Stamps.{next_after};
ghost use Rattle.gather.specs.Inner.Cursors.{cursor_in, StandIn};
ghost use Rattle.gather.specs.Inner.Gathered.{gathered_at, GatheredFrom, rows_in};

use crate::stamps::Cursors;
use image_run::walk::ImagesOf;
use rows::row;
use rows::row::RowFields;
use table::header;

// The row of a stamp in each table of a run, in their order, and the cursors behind that stamp. Where a table holds none or is not used stand zeros, which say nothing: no stamp is 0. An Option in each place would say no more, and every question would open it.
#[derive(Clone, Copy)]
pub struct Gathered {
    pub rows: [RowFields; 4],
    pub cursors: Cursors,
}

// Where the first image that holds a stamp begins in a run, and the stamp's row there.
#[derive(Clone, Copy)]
pub struct First {
    pub at: usize,
    pub row: RowFields,
}

// The fields of no row.
fn no_row() -> RowFields
    ensures { result ≡ no_fields }
{
    RowFields {
        stamp: 0,
        retry: 0,
        offset: 0,
        reads: 0,
        writes: 0,
        prepare: 0,
        outcome: 0,
    }
}

// The row of a stamp in a table, if the table is used and holds it: then it stands at the table's cursor.
fn row_under(image: &[u8], newest: u32, index: usize, stamp: u64) -> RowFields
    requires { BeginsWithImage valley image.now × (index ≡ cursor_in newest stamp (table_at format_one image.now)) × (0 < stamp) × (stamp < 2 ^ 48) }
    ensures { result ≡ fields_for image.now (place_in newest (table_at format_one image.now) stamp) }
{
    let h = header::read(image);
    if h.view != newest {
        return no_row();
    }
    if h.rows as usize <= index {
        return no_row();
    }
    let row = row::row_at(image, header::LENGTH, index);
    if row.stamp != stamp {
        return no_row();
    }
    row
}

// The cursor behind a row that was gathered, or where it was.
fn place_behind(row: RowFields, index: usize) -> usize
    requires { index < 2 ^ 63 }
    ensures { result ≡ cond (eqb row.stamp 0) index (index + 1) }
{
    if row.stamp == 0 { index } else { index + 1 }
}

// The rows of the next stamp, from all tables.
pub fn gather(run: &[u8], cursors: Cursors, stamp: u64) -> Gathered
    requires images { Images valley run.now × (length (tables_of valley run.now) ≤ 4) × StandIn run.now cursors }
    requires stamp_value { (stamp ≡ next_after cursors.last (stamps (used_of cursors.newest (tables_of valley run.now)))) × (stamp < 2 ^ 48) }
    ensures { result ≡ gathered_at cursors.newest stamp (tables_of valley run.now) run.now }
{
    let newest = cursors.newest;
    let mut rows = [no_row(); 4];
    let mut places = [0; 4];
    for (k, (image, index)) in ImagesOf::run(run).zip(&cursors.places).enumerate() {
        let row = row_under(image, newest, *index, stamp);
        rows[k] = row;
        places[k] = place_behind(row, *index);
    }
    let behind = Cursors {
        newest,
        last: stamp,
        places,
    };
    Gathered {
        rows,
        cursors: behind,
    }
}

// The first image of a run that holds the stamp.
pub fn first_of(run: &[u8], gathered: &Gathered) -> First
    requires { Images valley run.now × (length (tables_of valley run.now) ≤ 4) × GatheredFrom run.now gathered.now × (0 < length (rows_in run.now gathered.now)) }
    ensures { (result.at ≤ length run.now) × (drop result.at run.now ≡ from_first gathered.now.cursors.newest gathered.now.cursors.last (tables_of valley run.now) run.now) × (result.row ≡ fields_for (drop result.at run.now) (place_in gathered.now.cursors.newest (table_at format_one (drop result.at run.now)) gathered.now.cursors.last)) }
{
    for (image, row) in ImagesOf::run(run).zip(&gathered.rows) {
        if row.stamp != 0 {
            return First {
                at: run.len() - image.len(),
                row: *row,
            };
        }
    }
    // One image holds the stamp, so the walk does not come to its end.
    First {
        at: run.len(),
        row: no_row(),
    }
}
