// Where the table buffer of a box stands among those of its group, side by side in one lent buffer.
ghost use Rattle.std.specs.Prelude.{◌≡◌, ◌*◌};
ghost use Rattle.rules.specs.Tables.{valley};
ghost use Rattle.boxes.specs.Inner.OneBuffer.{buffer_of};

use table::model;

// The first byte of a box's table buffer: each of them has the least length that a valley box's may have.
pub fn place(boxnumber: u8) -> usize
    ensures { result ≡ 49176 * boxnumber }
{
    model::VALLEY_BUFFER * usize::from(boxnumber)
}

// A box's table buffer, to read: what there is of it, if the lent buffer ends before it does.
#[tactic(auto, using(crate::proofs::LentTables::part_read))]
pub fn buffer_of(tables: &[u8], boxnumber: u8) -> &[u8]
    ensures { result.now ≡ buffer_of valley tables.now boxnumber }
{
    let from = place(boxnumber);
    let to = from + model::VALLEY_BUFFER;
    &tables[from.min(tables.len())..to.min(tables.len())]
}
