// Every box of a group fresh.
ghost use Rattle.std.specs.Prelude.{◌≡◌, ◌*◌, ◌≤◌, length};
ghost use Rattle.rules.specs.Tables.{valley};
ghost use Rattle.numbers.specs.Inner.Ended.{ended_with};
ghost use Rattle.boxes.specs.Inner.OneBuffer.{start_number, start_tables, fresh_first};

use crate::buffers;
use numbers::Refusal;
use table::{fresh, header, model};

// Box after box, where there is room for all. What each call ends with need not be looked at: their group and their buffers are good, so that none is refused.
fn fresh_boxes(tables: &mut [u8], n: u8)
    requires { 49176 * n ≤ length tables.old }
    ensures { tables.new ≡ fresh_first valley n n tables.old }
{
    for boxnumber in 0..n {
        let from = buffers::place(boxnumber);
        let to = from + model::VALLEY_BUFFER;
        let _ = fresh::fresh(&mut tables[from..to], n, boxnumber);
    }
}

// The fresh tables of a group's boxes, side by side in a lent buffer: refused as too small if it has no room for n table buffers, as a bad message for a bad n, and then it is left as it is.
#[tactic(auto, using(crate::proofs::LentTables::starts))]
pub fn start_fresh(tables: &mut [u8], n: u8) -> Result<(), Refusal>
    ensures value { ended_with result ≡ start_number valley tables.old n }
    ensures tables_after { tables.new ≡ start_tables valley tables.old n }
{
    if tables.len() < buffers::place(n) {
        return Err(Refusal::SmallBuffer);
    }
    if !header::group_valid(n) {
        return Err(Refusal::BadMessage);
    }
    fresh_boxes(tables, n);
    Ok(())
}
