// The stamps of the used tables, one after the other: each time the least of those at the tables' cursors.
ghost use Rattle.std.specs.Prelude.{◌≡◌, ◌+◌, ◌≤◌, length, replicate};
ghost use Rattle.rules.specs.Tables.{valley};
ghost use Rattle.rules.specs.Merge.{stamps};
ghost use Rattle.table.specs.Images.{format_one};
ghost use Rattle.table.specs.Parse.{table_at, BeginsWithImage};
ghost use Rattle.image_run.specs.Inner.WholeRuns.{tables_of, Images};
ghost use Rattle.gather.specs.Inner.UsedTables.{used_of};
ghost use Rattle.gather.specs.Inner.Stamps.{next_after, stamp_above, stamp_or_none, earlier};
ghost use Rattle.gather.specs.Inner.Cursors.{cursor_in, StandIn};

use image_run::walk::ImagesOf;
use rows::row;
use table::header;

// How far a walk over the stamps has come: the last one, and for each table of the run the index of its first row above that. It stays 0 for a table of another view than `newest`, which is not used. A merge has at most four tables.
#[derive(Clone, Copy)]
pub struct Cursors {
    pub newest: u32,
    pub last: u64,
    pub places: [usize; 4],
}

impl Cursors {
    // Before the first stamp.
    pub fn start(newest: u32) -> Cursors
        ensures { result ≡ record { newest = newest; last = 0; places = replicate 4 0 } }
    {
        let places: [usize; 4] = [0; 4];
        Cursors {
            newest,
            last: 0,
            places,
        }
    }
}

// The stamp at a table's cursor, if the table is used.
fn stamp_above(image: &[u8], newest: u32, last: u64, index: usize) -> Option<u64>
    requires { BeginsWithImage valley image.now × (index ≡ cursor_in newest (last + 1) (table_at format_one image.now)) }
    ensures { result ≡ stamp_or_none (stamp_above newest (table_at format_one image.now) last) }
{
    let h = header::read(image);
    if h.view != newest {
        return None;
    }
    if index < h.rows as usize {
        return Some(row::row_at(image, header::LENGTH, index).stamp);
    }
    None
}

// The earlier of two stamps.
fn earlier(one: Option<u64>, other: Option<u64>) -> Option<u64>
    ensures { result ≡ earlier one other }
{
    match (one, other) {
        (Some(a), Some(b)) => Some(a.min(b)),
        _ => one.or(other),
    }
}

// The least stamp of the used tables of a run above the last one, if there is one.
pub fn next_stamp(run: &[u8], cursors: Cursors) -> Option<u64>
    requires { Images valley run.now × (length (tables_of valley run.now) ≤ 4) × StandIn run.now cursors }
    ensures { result ≡ stamp_or_none (next_after cursors.last (stamps (used_of cursors.newest (tables_of valley run.now)))) }
{
    let mut next = None;
    for (image, place) in ImagesOf::run(run).zip(&cursors.places) {
        next = earlier(
            next,
            stamp_above(image, cursors.newest, cursors.last, *place),
        );
    }
    next
}
