// The changes of `edit`, one by one, the body that a lookup hands out, and the stepping of a group in one lent buffer, for the tests and the measurements of host/. No part of the library: what box firmware links never changes a table but by an answer.
//
// Each asks what the function under it asks. The changes and the lookup ask something, which their caller must see to: nothing is tested here. The stepping of a group asks nothing, and whatever is lent to it is answered.
#![tactic(auto)]

ghost use Rattle.std.specs.Prelude.{◌≡◌, true, ◌+◌, ◌≤◌, ◌<◌, length};
ghost use Rattle.rules.specs.Tables.{rising, valley};
ghost use Rattle.wire.specs.Parts.{replaced};
ghost use Rattle.rules.specs.Messages.{held, with_prepare, with_outcome, promising};
ghost use Rattle.rows.specs.Fields.{row_length, fields_at, prepare_numbered, outcome_numbered, retry_by_code};
ghost use Rattle.rows.specs.Read.{row_of, rows_at};
ghost use Rattle.rows.specs.Inner.Rows.{size_of, BodyInside, RowsInside};
ghost use Rattle.rows.specs.Inner.Places.{place_of, held_body};
ghost use Rattle.rows.specs.declared.lookup.Place.TheVariants.{Absent};
ghost use Rattle.table.specs.Headers.{header_at};
ghost use Rattle.table.specs.Images.{format_one};
ghost use Rattle.table.specs.Parse.{table_at};
ghost use Rattle.edit.specs.Inner.Changes.{with_views, on_row, Storable, adding, taking};
ghost use Rattle.edit.specs.Inner.Holding.{Holds};
ghost use Rattle.edit.specs.Edited.{edited};
ghost use Rattle.answer.specs.Calls.{call_number, call_table, call_reply};
ghost use Rattle.boxes.specs.Inner.OneBuffer.{buffer_of, with_buffer, start_number, start_tables, merge_boxes_number, merge_boxes_run, merge_boxes_output};

#[unsafe(no_mangle)]
pub extern "C" fn trial_set_views(table: &mut [u8], mode: u8, view: u32, promised: u32)
    requires { Holds format_one table.old }
    ensures { table.new ≡ edited format_one (with_views mode view promised) table.old }
{
    edit::views::set_views(table, mode, view, promised)
}

#[unsafe(no_mangle)]
pub extern "C" fn trial_promise(table: &mut [u8], view: u32)
    requires { Holds format_one table.old }
    ensures { table.new ≡ edited format_one (λ T. promising T view) table.old }
{
    edit::views::promise(table, view)
}

#[unsafe(no_mangle)]
pub extern "C" fn trial_set_prepare(table: &mut [u8], index: usize, prepare: u8, retry: u64)
    requires { Holds format_one table.old × (index < (header_at table.old).rows) × (prepare ≤ 8) × (retry_by_code prepare retry ≡ true) }
    ensures { table.new ≡ edited format_one (on_row index (with_prepare (prepare_numbered prepare retry))) table.old }
{
    edit::state::set_prepare(table, index, prepare, retry)
}

#[unsafe(no_mangle)]
pub extern "C" fn trial_set_outcome(table: &mut [u8], index: usize, outcome: u8)
    requires { Holds format_one table.old × (index < (header_at table.old).rows) × (outcome ≤ 4) }
    ensures { table.new ≡ edited format_one (on_row index (with_outcome (outcome_numbered outcome))) table.old }
{
    edit::state::set_outcome(table, index, outcome)
}

// The lent bytes begin with the row's 24, as they would stand in an image; its offset says where its body lies in them.
#[unsafe(no_mangle)]
pub extern "C" fn trial_add_row(table: &mut [u8], index: usize, row: &[u8])
    requires holds { Holds format_one table.old × (rising 0 (table_at format_one table.old).rows ≡ true) × (place_of (table_at format_one table.old).rows (fields_at row.now 0).stamp ≡ Absent index) }
    requires row_length_in_bounds { (row_length ≤ length row.now) × Storable (fields_at row.now 0) × BodyInside row.now (fields_at row.now 0) }
    requires table_bound { ((header_at table.old).rows < 65536) × ((header_at table.old).length + row_length + size_of (fields_at row.now 0) ≤ length table.old) × ((header_at table.old).length + row_length + size_of (fields_at row.now 0) < 4294967296) }
    ensures { table.new ≡ edited format_one (adding (row_of row.now (fields_at row.now 0))) table.old }
{
    edit::add::add_row(table, index, rows::row::row_at(row, 0, 0), row)
}

#[unsafe(no_mangle)]
pub extern "C" fn trial_take_image(table: &mut [u8], image: &[u8])
    requires { Holds format_one table.old × Holds format_one image.now × ((header_at image.now).length ≤ length table.old) }
    ensures { table.new ≡ edited format_one (taking (table_at format_one image.now)) table.old }
{
    edit::take::take_image(table, image)
}

// The body of a stamp's row, as a lookup hands it out, copied to the start of a buffer; its length, which is 0 if no row has the stamp.
#[unsafe(no_mangle)]
pub extern "C" fn trial_held_body(
    image: &[u8],
    begin: usize,
    rows: usize,
    stamp: u64,
    out: &mut [u8],
) -> usize
    requires { RowsInside image.now begin rows × (rising 0 (rows_at image.now begin rows) ≡ true) × (length (held_body (held (rows_at image.now begin rows) stamp)) ≤ length out.old) }
    ensures value { result ≡ length (held_body (held (rows_at image.now begin rows) stamp)) }
    ensures out_after { out.new ≡ replaced out.old 0 (held_body (held (rows_at image.now begin rows) stamp)) }
{
    let place = rows::lookup::find(image, begin, rows, stamp).found;
    let body = rows::lookup::held_body(image, begin, place);
    wire::copy_part(body, out, 0);
    body.len()
}

// Every box of a group fresh, their table buffers side by side.
#[unsafe(no_mangle)]
pub extern "C" fn trial_start_fresh(tables: &mut [u8], n: u8) -> u8
    ensures value { result ≡ start_number valley tables.old n }
    ensures tables_after { tables.new ≡ start_tables valley tables.old n }
{
    numbers::number_of(boxes::start::start_fresh(tables, n))
}

// A message arrives at one box of them.
#[unsafe(no_mangle)]
pub extern "C" fn trial_arrive(
    tables: &mut [u8],
    boxnumber: u8,
    message: &[u8],
    reply: &mut [u8],
) -> u8
    ensures value { result ≡ call_number valley (buffer_of valley tables.old boxnumber) message.now reply.old }
    ensures tables_after { tables.new ≡ with_buffer valley tables.old boxnumber (call_table valley (buffer_of valley tables.old boxnumber) message.now reply.old) }
    ensures reply_after { reply.new ≡ call_reply valley (buffer_of valley tables.old boxnumber) message.now reply.old }
{
    numbers::number_of(boxes::arrive::arrive(tables, boxnumber, message, reply))
}

// The merge for a view of the tables that the named boxes hold now.
#[unsafe(no_mangle)]
pub extern "C" fn trial_merge_boxes(
    tables: &[u8],
    boxes: &[u8],
    view: u32,
    run: &mut [u8],
    out: &mut [u8],
) -> u8
    ensures value { result ≡ merge_boxes_number valley tables.now boxes.now view run.old out.old }
    ensures run_after { run.new ≡ merge_boxes_run valley tables.now boxes.now run.old out.old }
    ensures out_after { out.new ≡ merge_boxes_output valley tables.now boxes.now view run.old out.old }
{
    numbers::number_of(boxes::together::merge_boxes(tables, boxes, view, run, out))
}
