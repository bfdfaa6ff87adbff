// All rows of an image, tried one after the other where they stand: one pass over rows and bodies, with nothing copied.
ghost use Rattle.std.specs.Prelude.{◌≡◌, ◌+◌, ◌*◌, ◌≤◌, ◌<◌, length};
ghost use Rattle.rules.specs.Tests.{both};
ghost use Rattle.rows.specs.Fields.{row_length};
ghost use Rattle.rows.specs.Inner.FieldTests.{fields_by_rule};
ghost use Rattle.rows.specs.Inner.Rows.{place_by_rule, body_by_rule_at, row_by_rule_at, rows_by_rule_at};

use crate::row::RowFields;
use crate::{body, row};

// A row's body, whose counts are good and whose stamp is not 0.
#[tactic(auto, using(rules::proofs::Chains::chain, crate::proofs::Turns::body_told, crate::proofs::Turns::length_body_part))]
fn body_valid(image: &[u8], row: RowFields, end: usize) -> bool
    requires { (end ≤ length image.now) × (row.reads ≤ 4) × (row.writes ≤ 4) × (0 < row.stamp) }
    ensures { result ≡ body_by_rule_at image.now row end }
{
    row::body_inside(row, end)
        && body::contents_valid_by_counts(
            row::body_of(image, row),
            usize::from(row.reads),
            usize::from(row.writes),
            row.stamp,
        )
}

// A row's fields, and that it stands in its place: all but its body.
#[tactic(auto, using(rules::proofs::Chains::chain))]
fn head_valid(row: RowFields, last: u64, due: usize) -> bool
    ensures { result ≡ both (fields_by_rule row) (place_by_rule row last due) }
{
    row::fields_valid(row) && row::place_valid(row, last, due)
}

// One row after the stamp `last`, with its body due at a place.
#[tactic(auto, using(rules::proofs::Chains::chain, crate::proofs::Turns::head_facts), unfolding(crate::specs::Inner::Rows::row_by_rule_at))]
fn row_valid(image: &[u8], row: RowFields, last: u64, due: usize, end: usize) -> bool
    requires { end ≤ length image.now }
    ensures { result ≡ row_by_rule_at image.now row last due end }
{
    head_valid(row, last, due) && body_valid(image, row, end)
}

// All rows, and their bodies behind them up to `end`. It stays a call, since put into its caller the loop took five instructions more for each row.
#[inline(never)]
#[tactic(auto, using(crate::proofs::Turns::rows_turn, crate::proofs::Turns::rows_end, crate::proofs::Turns::row_room), unfolding(rules::specs::Tests::both))]
pub fn rows_valid(image: &[u8], begin: usize, rows: usize, end: usize) -> bool
    requires { (begin + row_length * rows ≤ end) × (end ≤ length image.now) × (end < 4294967296) }
    ensures { result ≡ rows_by_rule_at image.now begin rows end }
{
    let mut last: u64 = 0;
    let mut due = begin + row::LENGTH * rows;
    for i in 0..rows {
        let row = row::row_at(image, begin, i);
        let next = due + row::body_length(row.reads, row.writes);
        if !row_valid(image, row, last, due, end) {
            return false;
        }
        last = row.stamp;
        due = next;
    }
    due == end
}
