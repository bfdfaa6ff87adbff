// Another box's image in the place of this box's.
ghost use Rattle.std.specs.Prelude.{◌≡◌, ◌-◌, ◌≤◌, length, replicate};
ghost use Rattle.wire.specs.Parts.{replaced};
ghost use Rattle.table.specs.Headers.{header_at};
ghost use Rattle.table.specs.Images.{format_one};
ghost use Rattle.table.specs.Parse.{table_at};
ghost use Rattle.edit.specs.Inner.Changes.{taking};
ghost use Rattle.edit.specs.Inner.Holding.{Holds};
ghost use Rattle.edit.specs.Edited.{edited};

use table::header;

// Clears what an image that now ends at `end` gave up, if it ended at `old` before.
#[tactic(auto, using(wire::proofs::Parts::replaced_nothing))]
fn clear_given_up(table: &mut [u8], end: usize, old: usize)
    requires { old ≤ length table.old }
    ensures { table.new ≡ replaced table.old end (replicate (old - end) 0) }
{
    if end < old {
        wire::clear_part(table, end, old - end);
    }
}

// Takes the image that lent bytes begin with, whole, in the place of the table's own; the box stays this box.
#[tactic(auto, using(crate::proofs::Holding::one_least))]
pub fn take_image(table: &mut [u8], image: &[u8])
    requires { Holds format_one table.old × Holds format_one image.now × ((header_at image.now).length ≤ length table.old) }
    ensures { table.new ≡ edited format_one (taking (table_at format_one image.now)) table.old }
{
    let own = header::read(table);
    let taken = header::read(image);
    let end = taken.length as usize;
    wire::copy_part(&image[0..end], table, 0);
    header::write(table, taken.with_box(own.boxnumber));
    clear_given_up(table, end, own.length as usize);
}
