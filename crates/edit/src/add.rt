// A row more, with its body: rows and bodies moved up, the two put in between, and all offsets laid anew.
ghost use Rattle.std.specs.Prelude.{◌≡◌, true, ◌+◌, ◌*◌, ◌≤◌, ◌<◌, length};
ghost use Rattle.rules.specs.Tables.{rising};
ghost use Rattle.rows.specs.Fields.{row_length, fields_bytes};
ghost use Rattle.rows.specs.Read.{row_of};
ghost use Rattle.rows.specs.Inner.Rows.{size_of, BodyInside};
ghost use Rattle.rows.specs.Inner.Places.{place_of};
ghost use Rattle.rows.specs.declared.lookup.Place.TheVariants.{Absent};
ghost use Rattle.table.specs.Headers.{header_at};
ghost use Rattle.table.specs.Images.{format_one};
ghost use Rattle.table.specs.Parse.{table_at};
ghost use Rattle.edit.specs.Inner.Changes.{Storable, adding};
ghost use Rattle.edit.specs.Inner.Holding.{Holds};
ghost use Rattle.edit.specs.Edited.{edited};
ghost use Rattle.edit.specs.Inner.Parts.{slipped, laid, body_place, placed};

use rows::row;
use rows::row::RowFields;
use table::header;

// Where the body of a row that comes to an index goes: before that of the row that stands there, or after all of them.
#[tactic(auto, using(rules::proofs::Chains::tests), unfolding(crate::specs::Inner::Parts::body_place))]
fn body_place(image: &[u8], begin: usize, rows: usize, index: usize, end: usize) -> usize
    requires { begin + row_length * rows ≤ length image.now }
    ensures { result ≡ body_place image.now begin rows index end }
{
    if index < rows {
        row::row_at(image, begin, index).offset as usize
    } else {
        end
    }
}

// Puts a row in at an index and a body in at `middle`, from the end down, so that each part that moves goes to where nothing is needed any more.
// Rows from the index on and the bodies up to the new one stand side by side, and move as one part. The places are arguments here and in `place_row`: a struct of them would be made for one call and taken apart at once.
#[tactic(auto, using(crate::proofs::Slipped::slipped_steps, rows::proofs::FieldsRead::length_fields))]
fn slip_in(
    image: &mut [u8],
    begin: usize,
    index: usize,
    middle: usize,
    end: usize,
    row: RowFields,
    body: &[u8],
)
    requires { (begin + row_length * index ≤ middle) × (middle ≤ end) × (end + row_length + length body.now ≤ length image.old) }
    ensures { image.new ≡ slipped image.old (begin + row_length * index) middle end (fields_bytes row) body.now }
{
    let at = begin + row::LENGTH * index;
    wire::move_part(
        image,
        middle,
        middle + row::LENGTH + body.len(),
        end - middle,
    );
    wire::copy_part(body, image, middle + row::LENGTH);
    wire::move_part(image, at, at + row::LENGTH, middle - at);
    row::write_row(image, begin, index, row);
}

// Lays the offsets of all rows anew, by their counts: the first body right behind the rows, each other behind the one before.
#[tactic(auto, using(crate::proofs::LaidRows::lay_turn, crate::proofs::LaidRows::lay_end))]
pub fn lay_offsets(image: &mut [u8], begin: usize, rows: usize)
    requires { (begin + row_length * rows ≤ length image.old) × (begin ≤ 65536) × (rows ≤ 65536) }
    ensures { image.new ≡ laid image.old begin rows (begin + row_length * rows) }
{
    let mut due = begin + row::LENGTH * rows;
    for i in 0..rows {
        let row = row::row_at(image, begin, i);
        wire::put_u32(image, begin + row::LENGTH * i + 16, due as u32);
        due += row::body_length(row.reads, row.writes);
    }
}

// A row and its body in their places among `rows` rows that begin there and whose bodies end at `end`.
#[tactic(auto, unfolding(crate::specs::Inner::Parts::placed))]
fn place_row(
    image: &mut [u8],
    begin: usize,
    rows: usize,
    end: usize,
    index: usize,
    row: RowFields,
    body: &[u8],
)
    requires { (index ≤ rows) × (begin + row_length * rows ≤ body_place image.old begin rows index end) × (body_place image.old begin rows index end ≤ end) × (end + row_length + length body.now ≤ length image.old) × (begin ≤ 65536) × (rows < 65536) }
    ensures { image.new ≡ placed image.old begin rows end index (fields_bytes row) body.now }
{
    let middle = body_place(image, begin, rows, index, end);
    slip_in(image, begin, index, middle, end, row, body);
    lay_offsets(image, begin, rows + 1);
}

// Adds a row that the table does not hold, at the index that is its own by its stamp. Its body comes from a lent message, where the row's offset says.
pub fn add_row(table: &mut [u8], index: usize, row: RowFields, message: &[u8])
    requires holds { Holds format_one table.old × (rising 0 (table_at format_one table.old).rows ≡ true) × (place_of (table_at format_one table.old).rows row.stamp ≡ Absent index) }
    requires storable { Storable row × BodyInside message.now row }
    requires table_bound { ((header_at table.old).rows < 65536) × ((header_at table.old).length + row_length + size_of row ≤ length table.old) × ((header_at table.old).length + row_length + size_of row < 4294967296) }
    ensures { table.new ≡ edited format_one (adding (row_of message.now row)) table.old }
{
    let h = header::read(table);
    let rows = h.rows as usize;
    let end = h.length as usize;
    let body = row::body_of(message, row);
    let longer = end + row::LENGTH + body.len();
    place_row(table, header::LENGTH, rows, end, index, row, body);
    header::write(table, h.with_rows(h.rows + 1, longer as u32));
}
