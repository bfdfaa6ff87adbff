// The count: what is refused, and then fast, wait or slow, by what was kept of the replies.
ghost use Rattle.std.specs.Prelude.{◌≡◌, ◌%◌, ◌/◌};
ghost use Rattle.count.specs.Inner.TallyAnswers.{is_bad, fast_by, contradicts_by, how_many, slow_by, decided_by, answered};

use numbers::Refusal;
use replies::tally;
use replies::tally::{First, Range, Tally};
use table::header;

// The codes of results. A tally may be of any replies, so what it says of a result is a plain number, and no enum holds each.
const OK: u64 = 1;

const ABORT: u64 = 2;

const ABSTAIN: u64 = 3;

const RETRY: u64 = 4;

// What a count answers that is not refused: a result with its retry stamp, or to wait for more.
#[derive(Clone, Copy, Debug, PartialEq, Eq)]
pub enum Counted {
    Fast { result: u8, retry: u64 },
    Slow { result: u8, retry: u64 },
    Wait,
}

// Bad n, a box outside the group, or what was bad before. Any of these is a bit at n or above.
#[tactic(auto, using(crate::proofs::Sizes::group_small), unfolding(crate::specs::Inner::TallyAnswers::is_bad))]
fn is_bad(n: u8, tally: Tally) -> bool
    ensures { result ≡ is_bad n tally }
{
    !header::group_valid(n) || tally::power(n) <= tally.seen
}

// The result that the fast count of boxes agree on, packed. At most one reply differs from it, so it is that of the first reply or of all others.
#[tactic(auto, unfolding(crate::specs::Inner::TallyAnswers::fast_by, crate::specs::Inner::TallyAnswers::fast_packed))]
fn fast_result(n: u8, tally: Tally) -> Option<u64>
    ensures { result ≡ fast_by n tally }
{
    let enough = quorums::fast(n);
    let Range { least, greatest } = tally.others.results;
    let agreed = if enough <= tally.first.agreeing as usize {
        tally::pack(tally.first.code, tally.first.retry)
    } else if least == greatest && enough <= tally.others.number as usize {
        greatest
    } else {
        0
    };
    (agreed != 0).then_some(agreed)
}

// Two unequal finals, or a fast count for a result other than a final one.
#[tactic(auto, unfolding(crate::specs::Inner::TallyAnswers::contradicts_by))]
fn contradicts(finals: Range, fast: Option<u64>) -> bool
    ensures { result ≡ contradicts_by finals fast }
{
    finals.greatest != 0
        && (finals.least != finals.greatest || fast.is_some_and(|agreed| finals.greatest != agreed))
}

// How many have a code: those that agree with the first reply if it has it, and otherwise so many of the others.
fn how_many(code: u64, first: First, others: u64) -> u64
    ensures { result ≡ how_many code first others }
{
    if first.code == code {
        first.agreeing
    } else {
        others
    }
}

// The final result, or with none: ABORT if any is, OK if f+1 are, RETRY with the greatest stamp if any is, ABSTAIN.
#[tactic(auto, unfolding(crate::specs::Inner::TallyAnswers::slow_by))]
fn slow_result(n: u8, tally: Tally) -> u64
    ensures { result ≡ slow_by n tally }
{
    let Tally {
        first,
        others,
        finals,
        ..
    } = tally;
    let retry = first.retry.max(others.results.greatest / 8);
    if finals.greatest != 0 {
        finals.greatest
    } else if 0 < how_many(ABORT, first, others.aborts) {
        ABORT
    } else if quorums::quorum(n) <= how_many(OK, first, others.oks) as usize {
        OK
    } else if 0 < retry {
        tally::pack(RETRY, retry)
    } else {
        ABSTAIN
    }
}

// A packed result taken apart again: its code, and its retry stamp.
fn unpack(packed: u64) -> (u8, u64)
    ensures { (result.0 ≡ packed % 8) × (result.1 ≡ packed / 8) }
{
    ((packed % 8) as u8, packed / 8)
}

// Fast, wait or slow.
#[tactic(auto, unfolding(crate::specs::Inner::TallyAnswers::decided_by))]
fn decide(n: u8, tally: Tally, fast: Option<u64>) -> Counted
    ensures { result ≡ decided_by n tally fast }
{
    if let Some(packed) = fast {
        let (result, retry) = unpack(packed);
        return Counted::Fast { result, retry };
    }
    let number = tally.first.agreeing % 256 + tally.others.number % 256;
    if (number as usize) < quorums::quorum(n) {
        return Counted::Wait;
    }
    let (result, retry) = unpack(slow_result(n, tally));
    Counted::Slow { result, retry }
}

// The coordinator's count of the replies gone through, whatever they are.
#[tactic(auto, unfolding(crate::specs::Inner::TallyAnswers::answered))]
pub fn count(n: u8, tally: Tally) -> Result<Counted, Refusal>
    ensures { result ≡ answered n tally }
{
    if is_bad(n, tally) {
        return Err(Refusal::BadMessage);
    }
    let fast = fast_result(n, tally);
    if contradicts(tally.finals, fast) {
        return Err(Refusal::Contradiction);
    }
    Ok(decide(n, tally, fast))
}
