// A merge of what boxes hold now.
ghost use Rattle.std.specs.Prelude.{◌≡◌, true, ◌*◌, ◌≤◌, length};
ghost use Rattle.wire.specs.Parts.{replaced};
ghost use Rattle.numbers.specs.Inner.Ended.{ended_with};
ghost use Rattle.rules.specs.Tests.{is_some};
ghost use Rattle.rules.specs.Tables.{valley};
ghost use Rattle.boxes.specs.Inner.OneBuffer.{tables_named, run_named, merge_boxes_number, merge_boxes_run, merge_boxes_output};

use crate::buffers;
use numbers::Refusal;
use table::model::Model;
use table::{header, image, model};

// Whether each box that is named has a table: its buffer begins with an image.
fn all_whole(tables: &[u8], boxes: &[u8]) -> bool
    ensures { result ≡ is_some (tables_named valley tables.now boxes.now) }
{
    for named in boxes {
        let table = buffers::buffer_of(tables, *named);
        let Some(_) = image::find(table, Model::valley()) else {
            return false;
        };
    }
    true
}

// Copies the images of the boxes that are named, each behind the one before. The answer is where the last ends.
fn lay_images(tables: &[u8], boxes: &[u8], run: &mut [u8]) -> usize
    requires { (is_some (tables_named valley tables.now boxes.now) ≡ true) × (49176 * length boxes.now ≤ length run.old) }
    ensures value { result ≡ length (run_named valley tables.now boxes.now) }
    ensures run_after { run.new ≡ replaced run.old 0 (run_named valley tables.now boxes.now) }
{
    let mut end: usize = 0;
    for boxnumber in boxes {
        let table = buffers::buffer_of(tables, *boxnumber);
        let length = header::read(table).length as usize;
        wire::copy_part(&table[..length], run, end);
        end += length;
    }
    end
}

// The merge for a view of the tables that the named boxes hold now: their images are laid end to end in a lent run, and merged from there, with the merge's end. Before that a buffer is too small for want of room in the run or in the output, and a table is bad if a named box has none.
// Refused, no byte of the output changes, and tables are lent for reading alone. The run is room to work in: it is as it was if it was refused for a small buffer or a bad table, and for all else it begins with the images, as after a merge that is done.
pub fn merge_boxes(
    tables: &[u8],
    boxes: &[u8],
    view: u32,
    run: &mut [u8],
    out: &mut [u8],
) -> Result<(), Refusal>
    ensures value { ended_with result ≡ merge_boxes_number valley tables.now boxes.now view run.old out.old }
    ensures run_after { run.new ≡ merge_boxes_run valley tables.now boxes.now run.old out.old }
    ensures out_after { out.new ≡ merge_boxes_output valley tables.now boxes.now view run.old out.old }
{
    // not by a product with the number of boxes, which could be too large
    if run.len() / model::VALLEY_BUFFER < boxes.len() || out.len() < model::VALLEY_BUFFER {
        return Err(Refusal::SmallBuffer);
    }
    if !all_whole(tables, boxes) {
        return Err(Refusal::BadTable);
    }
    let end = lay_images(tables, boxes, run);
    merge::call::merge(&run[..end], view, out)
}
