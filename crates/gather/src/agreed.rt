// The tentative result of a stamp that enough used tables hold.
ghost use Rattle.std.specs.Prelude.{◌≡◌};
ghost use Rattle.rules.specs.Tests.{count};
ghost use Rattle.gather.specs.Inner.Gathered.{fields_from};
ghost use Rattle.gather.specs.Inner.Agreed.{is_tentative, has_codes, enough_have, agreed_among};

use crate::held::Gathered;
use crate::results::HeldResult;
use rows::row::RowFields;

// A tentative prepare byte.
#[tactic(auto, unfolding(rules::specs::Tests::both))]
fn is_tentative(prepare: u8) -> bool
    ensures { result ≡ is_tentative prepare }
{
    0 < prepare && prepare < 5
}

// Whether a row has this prepare byte and retry stamp.
#[tactic(auto, unfolding(rules::specs::Tests::both))]
fn has_codes(row: RowFields, prepare: u8, retry: u64) -> bool
    ensures { result ≡ has_codes prepare retry row }
{
    row.prepare == prepare && row.retry == retry
}

// How many of the rows have this prepare byte and retry stamp.
fn votes(gathered: &Gathered, prepare: u8, retry: u64) -> usize
    ensures { result ≡ count (has_codes prepare retry) (fields_from gathered.now.rows 0 4) }
{
    gathered
        .rows
        .iter()
        .filter(|row| has_codes(**row, prepare, retry))
        .count()
}

// Whether this prepare byte is a tentative result that enough of them hold, with its retry stamp.
#[tactic(auto, unfolding(rules::specs::Tests::both))]
fn is_enough(gathered: &Gathered, prepare: u8, retry: u64, agreement: usize) -> bool
    ensures { result ≡ enough_have agreement (fields_from gathered.now.rows 0 4) prepare retry }
{
    is_tentative(prepare) && agreement <= votes(gathered, prepare, retry)
}

// The tentative result that is found in at least the agreement count of the rows of a stamp.
pub fn agreed_result(gathered: &Gathered, agreement: usize) -> Option<HeldResult>
    ensures { result ≡ agreed_among agreement (fields_from gathered.now.rows 0 4) (fields_from gathered.now.rows 0 4) }
{
    for row in &gathered.rows {
        if is_enough(gathered, row.prepare, row.retry, agreement) {
            return Some(HeldResult {
                code: row.prepare,
                retry: row.retry,
            });
        }
    }
    None
}
