// The check: one pass over the rows of a lent image, from the last to the first, with four running answers. It is the merge's; that of messages 1 keeps the same answers (`day`).
ghost use Rattle.std.specs.Prelude.{◌≡◌, true, ℕ, ◌<◌, eqb};
ghost use Rattle.rules.specs.Tables.{rising};
ghost use Rattle.rules.specs.Check.{accepted, rule_a, rule_b, check};
ghost use Rattle.rows.specs.Inner.Results.{result_meant};
ghost use Rattle.rows.specs.Inner.Rows.{BodyInside, RowsInside};
ghost use Rattle.checks.specs.Inner.Lent.{lent_body, lent_fields, lent_row, lent_rows};
ghost use Rattle.checks.specs.Inner.Passed.{accepted_bytes, raised, with_named, row_clashes, seen_with, nothing_seen, PassedRows, answer_of};

use crate::checked::Checked;
use crate::lent::{Body, Rows};
use crate::{clashes, floor};
use rows::result::CheckResult;

// What the rows passed say: the advice, which is the greatest stamp of an accepted row that B names or 0; whether A holds of a committed one, whether B does, whether C holds of one. A prepared row raises the advice and B does not fire on it, so B has a mark of its own. The stamp stands first so that the marks lie side by side: apart, each would drag its padding through every turn of the loop.
#[derive(Clone, Copy)]
pub struct Seen {
    pub advice: u64,
    pub abort: bool,
    pub retry: bool,
    pub abstain: bool,
}

// Whether a row is committed or prepared. Of the others no rule speaks, and their bodies aren't looked at.
#[tactic(auto, using(rules::proofs::Chains::tests), unfolding(crate::specs::Inner::Passed::accepted_bytes, rules::specs::Tests::both, rules::specs::Tests::either))]
pub fn accepted(prepare: u8, outcome: u8) -> bool
    ensures { result ≡ accepted_bytes prepare outcome }
{
    outcome == 3 || outcome <= 2 && (prepare == 1 || prepare == 5)
}

// Whether the row at an index is accepted. Of one that is not nothing else is loaded, and a merge at work passes many that still wait.
#[tactic(auto, using(crate::proofs::StateBytes::accepted_bytes_lem))]
pub fn row_accepted(rows: Rows, index: usize) -> bool
    requires { index < rows.count }
    ensures { result ≡ accepted (lent_row rows.entry index) }
{
    let row = rows.row(index);
    accepted(row.prepare, row.outcome)
}

// Whether the row at an index is accepted and clashes with the transaction.
#[tactic(auto, unfolding(rules::specs::Tests::both, rows::specs::Read::row_of))]
fn row_clashes(rows: Rows, index: usize, checked: &Checked) -> bool
    requires { (index < rows.count) × BodyInside rows.image.now (lent_fields rows index) }
    ensures { result ≡ row_clashes checked.now.stamp (lent_body checked.now.body) (lent_row rows.entry index) }
{
    if !row_accepted(rows, index) {
        return false;
    }
    let row = rows.row(index);
    let held = rows.body(row);
    clashes::clashes(checked.stamp, checked.body, row.stamp, held, &checked.marks)
}

// The advice, which is the retry stamp if B fires, with one more accepted row: one that B names raises it.
#[tactic(auto, unfolding(crate::specs::Inner::Passed::raised))]
fn raised(advice: u64, other: u64, named: bool) -> u64
    ensures { result ≡ raised advice other named }
{
    if named { advice.max(other) } else { advice }
}

// One more accepted row, with what A and B say of it: both may hold. A committed one marks each by itself, so that A can win over all rows and not row by row. A prepared one is C's, whichever holds.
#[tactic(auto, using(crate::proofs::Rounds::or_either), unfolding(crate::specs::Inner::Passed::with_named, rules::specs::Tests::both, rules::specs::Tests::either))]
pub fn with_named(seen: Seen, other: u64, outcome: u8, a: bool, b: bool) -> Seen
    ensures { result ≡ with_named (eqb outcome 3) other a b seen }
{
    let committed = outcome == 3;
    Seen {
        advice: raised(seen.advice, other, b),
        abort: committed & a | seen.abort,
        retry: committed & b | seen.retry,
        abstain: !committed & (a | b) | seen.abstain,
    }
}

// One more row. One that clashes below the stamp wrote what was read too early: A. One above read too early what is written: B.
#[tactic(auto, using(crate::proofs::Rounds::clash_says), unfolding(rows::specs::Read::row_of))]
fn with_row(seen: Seen, rows: Rows, index: usize, checked: &Checked) -> Seen
    requires { (index < rows.count) × BodyInside rows.image.now (lent_fields rows index) }
    ensures { result ≡ seen_with rule_a rule_b checked.now.stamp (lent_body checked.now.body) (lent_row rows.entry index) seen }
{
    if !row_clashes(rows, index, checked) {
        return seen;
    }
    let row = rows.row(index);
    let by_a = row.stamp < checked.stamp;
    let by_b = checked.stamp < row.stamp;
    with_named(seen, row.stamp, row.outcome, by_a, by_b)
}

// What is known before the first row.
pub fn nothing_seen() -> Seen
    ensures { result ≡ nothing_seen }
{
    Seen {
        advice: 0,
        abort: false,
        retry: false,
        abstain: false,
    }
}

// What all rows together say: A comes first, then B, then C.
#[tactic(auto, unfolding(crate::specs::Inner::Passed::answer_of))]
pub fn answer(seen: Seen) -> CheckResult
    ensures { result_meant result ≡ answer_of seen }
{
    if seen.abort {
        CheckResult::Abort
    } else if seen.retry {
        CheckResult::Retry { stamp: seen.advice }
    } else if seen.abstain {
        CheckResult::Abstain
    } else {
        CheckResult::Ok
    }
}

// The pass itself, of either check: from the last row down to the silent ones. It ends where A has spoken, since no row below can change that answer.
pub fn passed<F: Fn(Seen, usize) -> Seen>(silent: usize, rows: usize, with_row: F) -> Seen
    requires { (seen : Seen) (index : ℕ) → index < rows → F.pre with_row seen index }
    ensures { PassedRows (F.post with_row) silent rows result }
{
    let mut seen = nothing_seen();
    for i in (silent..rows).rev() {
        seen = with_row(seen, i);
        if seen.abort {
            return seen;
        }
    }
    seen
}

// What the check says of a transaction at a stamp whose body is lent: a part of the table or of a message.
pub fn check(rows: Rows, stamp: u64, body: Body) -> CheckResult
    requires { RowsInside rows.image.now rows.begin rows.count × (rising 0 (lent_rows rows) ≡ true) }
    ensures { result_meant result ≡ check (lent_rows rows.entry) stamp (lent_body body.entry) }
{
    let checked = Checked::new(stamp, body);
    let silent = floor::silent_rows(rows, body.read(), stamp);
    let seen = passed(silent, rows.count, |seen, index| {
        with_row(seen, rows, index, &checked)
    });
    answer(seen)
}
