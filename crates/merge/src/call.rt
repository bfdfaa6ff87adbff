// The merge: the public call, which is done or refused by one of 01's list.
ghost use Rattle.std.specs.Prelude.{◌≡◌, ◌≤◌, ◌<◌, length};
ghost use Rattle.wire.specs.Parts.{replaced};
ghost use Rattle.rules.specs.Tables.{valley};
ghost use Rattle.rules.specs.Check.{check};
ghost use Rattle.rules.specs.Merge.{used, stamps, merged_table};
ghost use Rattle.numbers.specs.Inner.Ended.{ended_with};
ghost use Rattle.table.specs.Images.{format_one, image};
ghost use Rattle.image_run.specs.Inner.WholeRuns.{tables_of, Images};
ghost use Rattle.gather.specs.Inner.UsedTables.{used_of};
ghost use Rattle.merge.specs.Calls.{call_number, call_output};
ghost use Rattle.merge.specs.Inner.Written.{start_header};

use crate::write;
use decide::survey;
use image_run::{newest, whole, wrong};
use numbers::Refusal;
use settle::Turn;
use table::header;
use table::header::Header;
use table::model::Model;

// The header of a table of so many rows that starts a view: a fresh one of the box of that view, with view, promise and rows changed, and with start rows equal to rows.
#[tactic(auto, unfolding(rules::specs::Tables::fresh_table))]
fn start_header(n: u8, view: u32, rows: u32, length: u32) -> Header
    requires { 0 < n }
    ensures { result ≡ start_header n view rows length }
{
    let fresh = Header::fresh(n, (view % u32::from(n)) as u8);
    Header {
        start: rows,
        ..fresh
            .with_view(view)
            .with_promised(view)
            .with_rows(rows, length)
    }
}

// Writes the merged table of a run that is not refused: rows as they are before any check, and the header; then the agreed ones that wait are checked, then the open ones.
fn write_merged(out: &mut [u8], run: &[u8], view: u32, newest: u32, rows: usize)
    requires images { Images valley run.now × (0 < length run.now) × (49176 ≤ length out.old) × (length (tables_of valley run.now) ≤ 4) }
    requires run_value { (used_of newest (tables_of valley run.now) ≡ used (tables_of valley run.now)) × (rows ≡ length (stamps (used (tables_of valley run.now)))) × (rows ≤ 512) }
    ensures { out.new ≡ replaced out.old 0 (image format_one (merged_table check view (tables_of valley run.now))) }
{
    let n = header::read(run).n;
    let agreement = quorums::agreement(n);
    let written = write::write_rows(out, run, newest, agreement, rows);
    header::write(out, start_header(n, view, rows as u32, written.end as u32));
    let marks = written.marks;
    settle::check_rows(out, &marks, Turn::Agreed);
    settle::check_rows(out, &marks, Turn::Open);
}

// The merge for a view of the images laid end to end in a run, written at the start of an output buffer.
pub fn merge(run: &[u8], view: u32, out: &mut [u8]) -> Result<(), Refusal>
    ensures value { ended_with result ≡ call_number valley run.now view out.old }
    ensures out_after { out.new ≡ call_output valley run.now view out.old }
{
    let model = Model::valley();
    if out.len() < model.least {
        return Err(Refusal::SmallBuffer);
    }
    if !whole::is_whole(run, model) {
        return Err(Refusal::BadTable);
    }
    if wrong::are_wrong(run, view) {
        return Err(Refusal::WrongTables);
    }
    let newest = newest::newest_view(run);
    let seen = survey::survey_stamps(run, newest);
    seen.allows_merge(model.limit)?;
    write_merged(out, run, view, newest, seen.stamps);
    Ok(())
}
