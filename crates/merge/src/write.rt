// The rows of a merge as they are before any check, each written in its place, with its body in its own behind them all.
ghost use Rattle.std.specs.Prelude.{◌≡◌, ◌+◌, ◌*◌, ◌≤◌, ◌<◌, length};
ghost use Rattle.rules.specs.Tests.{is_some};
ghost use Rattle.rules.specs.Tables.{valley};
ghost use Rattle.rules.specs.Merge.{stamps, agreed_of, unchecked_row, unchecked_rows};
ghost use Rattle.rows.specs.Bytes.{length_of, bodies_length};
ghost use Rattle.rows.specs.Fields.{row_length};
ghost use Rattle.table.specs.Headers.{header_length};
ghost use Rattle.image_run.specs.Inner.WholeRuns.{tables_of, Images};
ghost use Rattle.gather.specs.Inner.UsedTables.{used_of};
ghost use Rattle.gather.specs.Inner.Gathered.{GatheredFrom, rows_in};
ghost use Rattle.merge.specs.Inner.Written.{laid_down, row_laid, MarkAgreed};

use decide::unchecked;
use gather::held::Gathered;
use gather::walk::StampsOf;
use gather::{agreed, held, state};
use rows::row;
use rows::row::RowFields;
use settle::marks;
use table::header;

// Where the next body is due, and whether the stamp's result is agreed.
#[derive(Clone, Copy)]
pub struct WrittenStamp {
    pub due: usize,
    pub agreed: bool,
}

// Where the image then ends, and a mark for each row: whether its stamp's result is agreed.
#[derive(Clone, Copy)]
pub struct WrittenRows {
    pub end: usize,
    pub marks: [u8; 64],
}

// Writes the row of a stamp that is held at an index, and its body where it is due: that of the first used table that holds it, since all hold it with this one. Its arguments are what the one loop below has in hand, which no other function takes.
fn write_stamp(
    out: &mut [u8],
    index: usize,
    due: usize,
    run: &[u8],
    gathered: &Gathered,
    agreement: usize,
) -> WrittenStamp
    requires images { Images valley run.now × (length (tables_of valley run.now) ≤ 4) × GatheredFrom run.now gathered.now × (0 < length (rows_in run.now gathered.now)) }
    requires index_bound { (index < 512) × (header_length + row_length * index + row_length ≤ length out.old) × (due + length_of (unchecked_row agreement gathered.now.cursors.last (rows_in run.now gathered.now)).body ≤ 49176) × (49176 ≤ length out.old) }
    ensures due_value { (result.due ≡ due + length_of (unchecked_row agreement gathered.now.cursors.last (rows_in run.now gathered.now)).body) × (result.agreed ≡ is_some (agreed_of agreement (rows_in run.now gathered.now))) }
    ensures out_after { out.new ≡ row_laid out.old index due (unchecked_row agreement gathered.now.cursors.last (rows_in run.now gathered.now)) }
{
    let agreed = agreed::agreed_result(gathered, agreement);
    let state = unchecked::unchecked_state(state::state_of(gathered), agreed);
    let first = held::first_of(run, gathered);
    let held = first.row;
    let at = first.at;
    let body = row::body_of(&run[at..], held);
    let row = RowFields {
        stamp: held.stamp,
        retry: state.retry,
        offset: due as u32,
        reads: held.reads,
        writes: held.writes,
        prepare: state.prepare,
        outcome: state.outcome,
    };
    row::write_row(out, header::LENGTH, index, row);
    wire::copy_part(body, out, due);
    WrittenStamp {
        due: due + body.len(),
        agreed: agreed.is_some(),
    }
}

// Writes the rows of all stamps of the used tables of a run, as many as `rows`, with their bodies behind. It stays a call for the stack's sake, and its rows are counted by hand: numbered by the iterator, what was gathered is copied once more, and a merge takes 1,024 bytes of stack.
#[inline(never)]
pub fn write_rows(
    out: &mut [u8],
    run: &[u8],
    newest: u32,
    agreement: usize,
    rows: usize,
) -> WrittenRows
    requires { Images valley run.now × (length (tables_of valley run.now) ≤ 4) × (rows ≡ length (stamps (used_of newest (tables_of valley run.now)))) × (rows ≤ 512) × (49176 ≤ length out.old) }
    ensures end_value { (result.end ≡ header_length + row_length * rows + bodies_length (unchecked_rows agreement (used_of newest (tables_of valley run.now)))) × MarkAgreed result.marks agreement (used_of newest (tables_of valley run.now)) }
    ensures out_after { out.new ≡ laid_down out.old (header_length + row_length * rows) (unchecked_rows agreement (used_of newest (tables_of valley run.now))) }
{
    let mut marks: [u8; 64] = [0; 64];
    let mut end = header::LENGTH + row::LENGTH * rows;
    let mut i: usize = 0;
    for gathered in StampsOf::used(run, newest) {
        let written = write_stamp(out, i, end, run, &gathered, agreement);
        end = written.due;
        if written.agreed {
            marks::mark(&mut marks, i);
        }
        i += 1;
    }
    WrittenRows { end, marks }
}
