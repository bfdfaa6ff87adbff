// The rows of an image: each read and written by its index, with its body where it lies, and the tests of its fields, one small function each.
ghost use Rattle.std.specs.Prelude.{◌≡◌, ◌+◌, ◌*◌, ◌≤◌, ◌<◌, ltb, leb, length};
ghost use Rattle.wire.specs.Parts.{replaced};
ghost use Rattle.rules.specs.Tests.{both};
ghost use Rattle.rules.specs.Stamps.{is_stamp, counts_by_rule};
ghost use Rattle.rows.specs.Bytes.{body_length};
ghost use Rattle.rows.specs.Fields.{row_length, fields_at, fields_bytes, retry_by_code};
ghost use Rattle.rows.specs.Inner.ChangedFields.{with_prepare_byte, with_outcome_byte};
ghost use Rattle.rows.specs.Inner.FieldTests.{codes_by_rule, state_plain, fields_by_rule};
ghost use Rattle.rows.specs.Inner.Rows.{BodyInside, body_part, place_by_rule};

use crate::{body, reader};

// The bytes of a row's fields.
pub const LENGTH: usize = 24;

// The fields of a row, in the order in which they stand. The two codes stay bytes, and the retry stamp beside them, since a row is read before anything is known of it.
#[derive(Clone, Copy)]
pub struct RowFields {
    pub stamp: u64,
    pub retry: u64,
    pub offset: u32,
    pub reads: u8,
    pub writes: u8,
    pub prepare: u8,
    pub outcome: u8,
}

impl RowFields {
    // The row with its prepare byte changed; the retry stamp goes with it.
    pub fn with_prepare(mut self, prepare: u8, retry: u64) -> RowFields
        ensures { result ≡ with_prepare_byte self prepare retry }
    {
        self.prepare = prepare;
        self.retry = retry;
        self
    }

    // The row with its outcome byte changed.
    pub fn with_outcome(mut self, outcome: u8) -> RowFields
        ensures { result ≡ with_outcome_byte self outcome }
    {
        self.outcome = outcome;
        self
    }
}

// The fields of the row at an index of an image whose rows begin there: the reader's work, in a plain slice.
#[tactic(auto, unfolding(crate::specs::Fields::fields_at))]
pub fn fields_at(image: &[u8], begin: usize, index: usize) -> RowFields
    requires { begin + row_length * index + row_length ≤ length image.now }
    ensures { result ≡ fields_at image.now (begin + row_length * index) }
{
    let at = begin + LENGTH * index;
    RowFields {
        stamp: wire::u64_at(image, at),
        retry: wire::u64_at(image, at + 8),
        offset: wire::u32_at(image, at + 16),
        reads: wire::u8_at(image, at + 20),
        writes: wire::u8_at(image, at + 21),
        prepare: wire::u8_at(image, at + 22),
        outcome: wire::u8_at(image, at + 23),
    }
}

// The row at an index of an image whose rows begin there, through a reader. Whoever goes over rows takes them from here.
pub fn row_at(image: &[u8], begin: usize, index: usize) -> RowFields
    requires { begin + row_length * index + row_length ≤ length image.now }
    ensures { result ≡ fields_at image.now (begin + row_length * index) }
{
    reader::at(image, begin, index).row()
}

// Writes the row at an index of an image whose rows begin there. Whoever writes a whole row writes it here.
#[tactic(auto, using(crate::proofs::RowSteps::row_steps))]
pub fn write_row(image: &mut [u8], begin: usize, index: usize, row: RowFields)
    requires { begin + row_length * index + row_length ≤ length image.old }
    ensures { image.new ≡ replaced image.old (begin + row_length * index) (fields_bytes row) }
{
    let at = begin + LENGTH * index;
    wire::put_u64(image, at, row.stamp);
    wire::put_u64(image, at + 8, row.retry);
    wire::put_u32(image, at + 16, row.offset);
    wire::put_four_u8(
        image,
        at + 20,
        row.reads,
        row.writes,
        row.prepare,
        row.outcome,
    );
}

// How many bytes a body with these counts has, by the rules or not. The bound is there for callers that add many of them.
pub fn body_length(reads: u8, writes: u8) -> usize
    ensures { (result ≡ body_length reads writes) × (result ≤ 4590) }
{
    9 * (usize::from(reads) + usize::from(writes))
}

// A row's body: the part of the lent image where it lies.
#[tactic(auto, unfolding(crate::specs::Inner::Rows::body_part))]
pub fn body_of(image: &[u8], row: RowFields) -> &[u8]
    requires { BodyInside image.now row }
    ensures { result.now ≡ body_part image.now row }
{
    let from = row.offset as usize;
    let to = from + body_length(row.reads, row.writes);
    &image[from..to]
}

// The body of the row at an index: the reader's work, in a plain slice.
pub fn body_in(image: &[u8], begin: usize, index: usize) -> &[u8]
    requires { (begin + row_length * index + row_length ≤ length image.now) × BodyInside image.now (fields_at image.now (begin + row_length * index)) }
    ensures { result.now ≡ body_part image.now (fields_at image.now (begin + row_length * index)) }
{
    body_of(image, fields_at(image, begin, index))
}

// The body of the row at an index, through a reader.
pub fn body_at(image: &[u8], begin: usize, index: usize) -> &[u8]
    requires { (begin + row_length * index + row_length ≤ length image.now) × BodyInside image.now (fields_at image.now (begin + row_length * index)) }
    ensures { result.now ≡ body_part image.now (fields_at image.now (begin + row_length * index)) }
{
    reader::at(image, begin, index).body()
}

// A stamp is 1 to 2^48-1.
#[tactic(auto, using(rules::proofs::Chains::tests), unfolding(rules::specs::Stamps::is_stamp, rules::specs::Tests::both))]
pub fn stamp_valid(stamp: u64) -> bool
    ensures { result ≡ is_stamp stamp }
{
    0 < stamp && stamp < 0x1_0000_0000_0000
}

// Prepare is 0 to 8, outcome 0 to 4, and not both are zero.
#[tactic(auto, using(rules::proofs::Chains::tests), unfolding(crate::specs::Inner::FieldTests::codes_by_rule, rules::specs::Tests::both))]
pub fn codes_valid(prepare: u8, outcome: u8) -> bool
    ensures { result ≡ codes_by_rule prepare outcome }
{
    prepare <= 8 && outcome <= 4 && 0 < prepare + outcome
}

// The retry stamp is a stamp for RETRY, tentative or final, and 0 otherwise.
#[tactic(auto, using(rules::proofs::Chains::tests), unfolding(crate::specs::Fields::retry_by_code, rules::specs::Tests::either))]
pub fn retry_valid(prepare: u8, retry: u64) -> bool
    ensures { result ≡ retry_by_code prepare retry }
{
    match prepare {
        4 | 8 => stamp_valid(retry),
        _ => retry == 0,
    }
}

// Whether a row's body ends by `end`.
#[tactic(auto, using(rules::proofs::Chains::tests))]
pub fn body_inside(row: RowFields, end: usize) -> bool
    ensures { result ≡ leb (row.offset + body_length row.reads row.writes) end }
{
    row.offset as usize + body_length(row.reads, row.writes) <= end
}

// Stamps rise strictly from row to row.
pub fn stamp_rises(last: u64, stamp: u64) -> bool
    ensures { result ≡ ltb last stamp }
{
    last < stamp
}

// A stamp, and counts of a body.
#[tactic(auto, using(rules::proofs::Chains::chain))]
fn stamp_and_counts_valid(row: RowFields) -> bool
    ensures { result ≡ both (is_stamp row.stamp) (counts_by_rule row.reads row.writes) }
{
    stamp_valid(row.stamp) && body::counts_valid(row.reads, row.writes)
}

// A state that is plainly good, as most are: a prepare other than RETRY, tentative or final, with any outcome, and no retry stamp.
// As one expression it was tried, and a walk took two instructions more for each row.
#[tactic(auto, using(rules::proofs::Chains::tests), unfolding(crate::specs::Inner::FieldTests::state_plain, rules::specs::Tests::both))]
fn state_plain(row: RowFields) -> bool
    ensures { result ≡ state_plain row.prepare row.retry row.outcome }
{
    if row.prepare % 4 == 0 || row.retry != 0 || 7 < row.prepare {
        return false;
    }
    row.outcome <= 4
}

// The two bytes, and the retry stamp that goes with them. A state that is not plainly good goes through its tests in order.
#[tactic(auto, using(rules::proofs::Chains::chain, crate::proofs::Codes::plain_state))]
fn state_valid(row: RowFields) -> bool
    ensures { result ≡ both (codes_by_rule row.prepare row.outcome) (retry_by_code row.prepare row.retry) }
{
    state_plain(row)
        || (codes_valid(row.prepare, row.outcome) && retry_valid(row.prepare, row.retry))
}

// All that a row's own fields tell.
#[tactic(auto, using(rules::proofs::Chains::chain), unfolding(crate::specs::Inner::FieldTests::fields_by_rule))]
pub fn fields_valid(row: RowFields) -> bool
    ensures { result ≡ fields_by_rule row }
{
    stamp_and_counts_valid(row) && state_valid(row)
}

// Whether a row stands in its place: its body where the one before ended, its stamp above the one before.
#[tactic(auto, using(rules::proofs::Chains::chain), unfolding(crate::specs::Inner::Rows::place_by_rule, rules::specs::Tests::both))]
pub fn place_valid(row: RowFields, last: u64, due: usize) -> bool
    ensures { result ≡ place_by_rule row last due }
{
    row.offset as usize == due && stamp_rises(last, row.stamp)
}
