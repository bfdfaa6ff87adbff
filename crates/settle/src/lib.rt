// The checks of a merge, over the merged table where it stands. A row that waits for its check holds nothing yet, so that a check sees the rows settled before it and no other.
#![tactic(auto)]

pub mod marks;

ghost use Rattle.std.specs.Prelude.{◌≡◌, true, ◌+◌, ◌*◌, ◌≤◌, ◌<◌, length};
ghost use Rattle.rules.specs.Tests.{every};
ghost use Rattle.rules.specs.Tables.{rising};
ghost use Rattle.rules.specs.Messages.{with_rows};
ghost use Rattle.rows.specs.Fields.{row_length, fields_at};
ghost use Rattle.rows.specs.Read.{row_of};
ghost use Rattle.table.specs.Headers.{header_length, header_at};
ghost use Rattle.table.specs.Images.{format_one};
ghost use Rattle.table.specs.Parse.{table_at};
ghost use Rattle.edit.specs.Inner.Changes.{on_row};
ghost use Rattle.edit.specs.Inner.Holding.{Holds};
ghost use Rattle.edit.specs.Edited.{edited};
ghost use Rattle.settle.specs.Inner.Marks.{is_marked};
ghost use Rattle.settle.specs.Inner.Turns.{has_stamp, is_open, waits, checked_by, checked_rows};

use checks::lent::Rows;
use checks::pass;
use edit::state;
use rows::row;
use table::header;

// The two turns in which rows that wait are checked: those whose stamp has an agreed result come first, then the open ones.
#[derive(Clone, Copy, Debug, PartialEq, Eq)]
pub enum Turn {
    Agreed,
    Open,
}

// Gives the row at an index what the check says of it, final.
fn check_row(out: &mut [u8], index: usize)
    requires { Holds format_one out.old × (index < (header_at out.old).rows) × (every has_stamp (table_at format_one out.old).rows ≡ true) × (rising 0 (table_at format_one out.old).rows ≡ true) }
    ensures { out.new ≡ edited format_one (on_row index (checked_by (table_at format_one out.old).rows)) out.old }
{
    let rows = Rows {
        image: out,
        begin: header::LENGTH,
        count: header::read(out).rows as usize,
    };
    let row = rows.row(index);
    let checked = pass::check(rows, row.stamp, rows.body(row));
    state::set_prepare(out, index, checked.code() + 4, checked.retry());
}

// Whether the row at an index waits for its check in a turn. Its mark says in which of the two.
#[tactic(auto, using(crate::proofs::CheckedInPlace::prepared_waits_not, crate::proofs::CheckedInPlace::decided_waits_not, crate::proofs::CheckedInPlace::by_mark))]
fn row_waits(out: &[u8], index: usize, marks: &[u8; 64], turn: Turn) -> bool
    requires { (index < 512) × (header_length + row_length * index + row_length ≤ length out.now) }
    ensures { result ≡ waits (is_open turn) (is_marked marks.now index) (row_of out.now (fields_at out.now (header_length + row_length * index))) }
{
    let row = row::row_at(out, header::LENGTH, index);
    row.prepare == 0 && row.outcome == 0 && marks::is_marked(marks, index) == (turn == Turn::Agreed)
}

// Checks the rows that wait for a turn, in rising stamp order.
pub fn check_rows(out: &mut [u8], marks: &[u8; 64], turn: Turn)
    requires { Holds format_one out.old × (rising 0 (table_at format_one out.old).rows ≡ true) × (every has_stamp (table_at format_one out.old).rows ≡ true) × ((header_at out.old).rows ≤ 512) }
    ensures { out.new ≡ edited format_one (λ T. with_rows T (checked_rows (is_open turn) marks.now T.rows)) out.old }
{
    let rows = header::read(out).rows as usize;
    for i in 0..rows {
        if row_waits(out, i, marks, turn) {
            check_row(out, i);
        }
    }
}
