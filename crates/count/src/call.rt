// The count over lent bytes, 15 a reply.
ghost use Rattle.std.specs.Prelude.{◌≡◌, ◌≤◌, ◌/◌, length};
ghost use Rattle.replies.specs.Inner.Tallies.{no_tally, with_replies};
ghost use Rattle.count.specs.Answers.{answer_as};
ghost use Rattle.count.specs.Calls.{reply_at, replies_of, count_bytes};

use crate::answer;
use crate::answer::Counted;
use numbers::Refusal;
use replies::held::Reply;
use replies::tally::Tally;

// The length of a reply as it is counted; the one that a box sends has 24 bytes.
const LENGTH: usize = 15;

// The reply in a record of 15 bytes.
#[tactic(auto, unfolding(crate::specs::Calls::reply_at))]
fn reply_at(bytes: &[u8]) -> Reply
    requires { 15 ≤ length bytes.now }
    ensures { result ≡ reply_at bytes.now 0 }
{
    Reply {
        boxnumber: wire::u8_at(bytes, 0),
        view: wire::u32_at(bytes, 1),
        result: wire::u8_at(bytes, 5),
        retry: wire::u64_at(bytes, 6),
        finality: wire::u8_at(bytes, 14),
    }
}

// What is kept of the whole replies in some bytes.
fn gather(bytes: &[u8]) -> Tally
    ensures { result ≡ with_replies no_tally (replies_of (length bytes.now / 15) bytes.now) }
{
    bytes.chunks_exact(LENGTH).fold(Tally::none(), |tally, record| tally.with(reply_at(record)))
}

// The coordinator's count of any bytes. More than seven replies are bad whatever they are, so none of them is read.
#[tactic(auto, using(crate::proofs::HeardBytes::count_long, crate::proofs::HeardBytes::count_broken, crate::proofs::HeardBytes::count_whole, crate::proofs::HeardBytes::length_replies_of, crate::proofs::TallyCounts::tally_counted))]
pub fn count(n: u8, bytes: &[u8]) -> Result<Counted, Refusal>
    ensures { result ≡ answer_as (count_bytes n bytes.now) }
{
    if 7 * LENGTH < bytes.len() || bytes.len() % LENGTH != 0 {
        return Err(Refusal::BadMessage);
    }
    answer::count(n, gather(bytes))
}
