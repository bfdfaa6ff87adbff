// A row's prepare byte with its retry stamp, and its outcome byte.
ghost use Rattle.std.specs.Prelude.{◌≡◌, true, ◌+◌, ◌*◌, ◌≤◌, ◌<◌, length};
ghost use Rattle.wire.specs.Parts.{replaced};
ghost use Rattle.rules.specs.Messages.{with_prepare, with_outcome};
ghost use Rattle.rows.specs.declared.row.RowFields.{RowFields};
ghost use Rattle.rows.specs.Fields.{row_length, fields_at, fields_bytes, prepare_numbered, outcome_numbered, retry_by_code};
ghost use Rattle.table.specs.Headers.{header_length, header_at};
ghost use Rattle.table.specs.Images.{format_one};
ghost use Rattle.edit.specs.Inner.Changes.{on_row};
ghost use Rattle.edit.specs.Inner.Holding.{Holds};
ghost use Rattle.edit.specs.Edited.{edited};

use rows::row;
use rows::row::RowFields;
use table::header;

// Changes the row at an index.
fn change_row<F: Fn(RowFields) -> RowFields>(table: &mut [u8], index: usize, change: F)
    requires inside { header_length + row_length * index + row_length ≤ length table.old }
    requires callable { F.IsAlwaysCallable change }
    ensures { (row : RowFields) × F.post change (fields_at table.old (header_length + row_length * index)) row × (table.new ≡ replaced table.old (header_length + row_length * index) (fields_bytes row)) }
{
    let held = row::row_at(table, header::LENGTH, index);
    row::write_row(table, header::LENGTH, index, change(held));
}

// Stores a prepare byte and its retry stamp in the row at an index.
pub fn set_prepare(table: &mut [u8], index: usize, prepare: u8, retry: u64)
    requires { Holds format_one table.old × (index < (header_at table.old).rows) × (prepare ≤ 8) × (retry_by_code prepare retry ≡ true) }
    ensures { table.new ≡ edited format_one (on_row index (with_prepare (prepare_numbered prepare retry))) table.old }
{
    change_row(table, index, |held| held.with_prepare(prepare, retry));
}

// Stores an outcome byte in the row at an index.
pub fn set_outcome(table: &mut [u8], index: usize, outcome: u8)
    requires { Holds format_one table.old × (index < (header_at table.old).rows) × (outcome ≤ 4) }
    ensures { table.new ≡ edited format_one (on_row index (with_outcome (outcome_numbered outcome))) table.old }
{
    change_row(table, index, |held| held.with_outcome(outcome));
}
