// The count over a lent list of reply structs.
ghost use Rattle.std.specs.Prelude.{◌≡◌};
ghost use Rattle.replies.specs.Inner.Tallies.{no_tally, with_replies};
ghost use Rattle.count.specs.Answers.{answer_as};
ghost use Rattle.count.specs.Calls.{count_of};

use crate::answer;
use crate::answer::Counted;
use numbers::Refusal;
use replies::held::Reply;
use replies::tally::Tally;

// What is kept of the replies of a list.
fn gather(list: &[Reply]) -> Tally
    ensures { result ≡ with_replies no_tally list.now }
{
    list.iter()
        .fold(Tally::none(), |tally, reply| tally.with(*reply))
}

// The coordinator's count of any list. More than seven replies are bad whatever they are, so none of them is read.
#[tactic(auto, using(crate::proofs::Counts::many_bad, crate::proofs::TallyCounts::tally_counted))]
pub fn count(n: u8, list: &[Reply]) -> Result<Counted, Refusal>
    ensures { result ≡ answer_as (count_of n list.now) }
{
    if 7 < list.len() {
        return Err(Refusal::BadMessage);
    }
    answer::count(n, gather(list))
}
