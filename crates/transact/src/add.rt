// A row for a stamp that the table does not hold, for messages 1 and 3 alike.
ghost use Rattle.std.specs.Prelude.{◌≡◌, true, ◌+◌, ◌≤◌, ◌<◌, length};
ghost use Rattle.rules.specs.Tables.{rising};
ghost use Rattle.rows.specs.Read.{row_of};
ghost use Rattle.rows.specs.Inner.Rows.{size_of, BodyInside};
ghost use Rattle.rows.specs.Inner.Places.{place_of};
ghost use Rattle.rows.specs.Fields.{row_length};
ghost use Rattle.rows.specs.declared.lookup.Place.TheVariants.{Absent};
ghost use Rattle.table.specs.Headers.{header_at};
ghost use Rattle.table.specs.Images.{format_one};
ghost use Rattle.table.specs.Parse.{table_at};
ghost use Rattle.edit.specs.Inner.Changes.{Storable, adding};
ghost use Rattle.edit.specs.Inner.Holding.{Holds};
ghost use Rattle.edit.specs.Edited.{edited};
ghost use Rattle.transact.specs.Inner.DoneReplies.{done_reply};

use crate::reply::Reply;
use rows::row::RowFields;
use table::header;

// Adds the row, and replies with the state byte that the kind asks for and the row's retry stamp.
pub fn add_new(
    table: &mut [u8],
    index: usize,
    row: RowFields,
    message: &[u8],
    kind: u8,
    state: u8,
) -> Reply
    requires holds { Holds format_one table.old × (rising 0 (table_at format_one table.old).rows ≡ true) × (place_of (table_at format_one table.old).rows row.stamp ≡ Absent index) }
    requires storable { Storable row × BodyInside message.now row }
    requires table_bound { ((header_at table.old).rows < 65536) × ((header_at table.old).length + row_length + size_of row ≤ length table.old) × ((header_at table.old).length + row_length + size_of row < 4294967296) }
    ensures value { result ≡ done_reply (header_at table.old) kind state row.stamp row.retry }
    ensures table_after { table.new ≡ edited format_one (adding (row_of message.now row)) table.old }
{
    let h = header::read(table);
    edit::add::add_row(table, index, row, message);
    Reply::taken(h, kind, state, row.stamp, row.retry)
}
