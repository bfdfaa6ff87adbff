// The check of messages 1, by which entries follow the day's order: one pass over the rows of a lent image, from the last to the first.
ghost use Rattle.std.specs.Prelude.{◌≡◌, true, ◌<◌, ltb};
ghost use Rattle.rules.specs.Tests.{both};
ghost use Rattle.rules.specs.Tables.{rising};
ghost use Rattle.rules.specs.DayOrder.{day_a, day_b, day_check};
ghost use Rattle.rows.specs.Inner.Results.{result_meant};
ghost use Rattle.rows.specs.Inner.Rows.{BodyInside, RowsInside};
ghost use Rattle.checks.specs.Inner.Lent.{lent_body, lent_fields, lent_row, lent_rows};
ghost use Rattle.checks.specs.Inner.RegisterWrites.{Marked};
ghost use Rattle.checks.specs.Inner.Passed.{seen_with, later};

use crate::checked::Checked;
use crate::lent::{Body, Rows};
use crate::pass::Seen;
use crate::{accesses, clashes, floor, pass};
use rows::result::CheckResult;

// A transaction of message 1: the registers that it writes are marked too. Both marks are lent, since they would be copied into it.
#[derive(Drop)]
struct Proposed<'a> {
    checked: &'a Checked<'a>,
    written_marks: &'a [bool; 64],
    ghost written: { Marked written_marks.now (lent_body checked.now.body).writes },
}

// Whether another transaction lies above the stamp and reads or writes a register that is written. What it accesses is looked up among the marks of what is written.
#[tactic(auto, using(crate::proofs::Rounds::later_sides))]
fn later(proposed: &Proposed, other: u64, held: Body) -> bool
    ensures { result ≡ later proposed.now.checked.now.stamp (lent_body proposed.now.checked.now.body) other (lent_body held.entry) }
{
    let checked = proposed.checked;
    checked.stamp < other
        && accesses::common(
            held.accessed(),
            checked.body.written(),
            proposed.written_marks,
        )
}

// One more row. If it is accepted, A and B are asked of it apart: a later write of a register that is read and written meets both.
#[tactic(auto, using(crate::proofs::Rounds::day_says), unfolding(rows::specs::Read::row_of))]
fn with_row(seen: Seen, rows: Rows, index: usize, proposed: &Proposed) -> Seen
    requires { (index < rows.count) × BodyInside rows.image.now (lent_fields rows index) }
    ensures { result ≡ seen_with day_a day_b proposed.now.checked.now.stamp (lent_body proposed.now.checked.now.body) (lent_row rows.entry index) seen }
{
    if !pass::row_accepted(rows, index) {
        return seen;
    }
    let row = rows.row(index);
    let held = rows.body(row);
    let checked = proposed.checked;
    let a = clashes::stale_marked(
        row.stamp,
        held.written(),
        checked.body.read(),
        &checked.marks,
    );
    let b = later(proposed, row.stamp, held);
    if a | b {
        pass::with_named(seen, row.stamp, row.outcome, a, b)
    } else {
        seen
    }
}

// What the check of messages 1 says of a transaction at a stamp whose body is lent.
pub fn check(rows: Rows, stamp: u64, body: Body) -> CheckResult
    requires { RowsInside rows.image.now rows.begin rows.count × (rising 0 (lent_rows rows) ≡ true) }
    ensures { result_meant result ≡ day_check (lent_rows rows.entry) stamp (lent_body body.entry) }
{
    let checked = Checked::new(stamp, body);
    let written_marks = accesses::marks_of(body.written());
    let proposed = Proposed {
        checked: &checked,
        written_marks: &written_marks,
    };
    let silent = floor::silent_rows(rows, body.read(), stamp);
    let seen = pass::passed(silent, rows.count, |seen, index| {
        with_row(seen, rows, index, &proposed)
    });
    pass::answer(seen)
}
