// What a count keeps of the replies gone through: a few numbers, and no reply.
//
// Every field of it is a whole word, since the compiler copies the bytes between smaller ones too, and a count of seven replies took three to four times the instructions with them. So what is not there yet is 0 in its field, and no `Option`.
ghost use Rattle.std.specs.Prelude.{◌≡◌, ◌<◌, ◌+◌, ◌%◌, ◌^◌};
ghost use Rattle.message.specs.Messages.{result_by_code};
ghost use Rattle.replies.specs.Inner.Tallies.{packed, more_if, no_range, in_range, no_tally, spoilt, first_by, is_said, agreed_by, with_other, has_view, with_finality, with_result, with_reply};

use crate::held::Reply;
use rows::row;

// The least and the greatest of some results, each packed into one number: they are equal if all these results are the same.
#[derive(Clone, Copy)]
pub struct Range {
    pub least: u64,
    pub greatest: u64,
}

// The result of the first reply, and how many have it.
#[derive(Clone, Copy)]
pub struct First {
    pub code: u64,
    pub retry: u64,
    pub agreeing: u64,
}

// The replies with another result than the first one's: how many they are, how many of them are OK, how many ABORT.
#[derive(Clone, Copy)]
pub struct Others {
    pub number: u64,
    pub oks: u64,
    pub aborts: u64,
    pub results: Range,
}

// The boxes are bits, box 0 the lowest. Bit 7, which is no box's, says that something was bad.
#[derive(Clone, Copy)]
pub struct Tally {
    pub seen: u64,
    pub view: u64,
    pub first: First,
    pub others: Others,
    pub finals: Range,
}

// A result as one number. Nothing of one by the rules is lost: its code is below 8, its retry stamp below 2 to the 48.
pub fn pack(code: u64, retry: u64) -> u64
    ensures { result ≡ packed code retry }
{
    8 * (retry % 0x2000_0000_0000_0000) + code % 8
}

// One more of at most seven. A number above 255 is nobody's here, so that nothing is asked of it.
fn one_more(number: u64) -> u64
    ensures { result ≡ number % 256 + 1 }
{
    number % 256 + 1
}

// One more, if so.
fn more_if(number: u64, yes: bool) -> u64
    ensures { result ≡ more_if yes number }
{
    if yes { one_more(number) } else { number }
}

// 2 to the k: the bit of box k, and what all bits below it are below.
pub fn power(k: u8) -> u64
    requires { k < 8 }
    ensures { result ≡ 2 ^ k }
{
    1 << k
}

// A code of a result with its retry stamp by the rows' rule: only RETRY has a stamp.
#[tactic(auto, unfolding(message::specs::Messages::result_by_code, rows::specs::Fields::retry_by_code, rules::specs::Tests::both, rules::specs::Tests::either))]
fn result_valid(reply: Reply) -> bool
    ensures { result ≡ result_by_code reply.result reply.retry }
{
    if reply.result == 4 {
        row::stamp_valid(reply.retry)
    } else {
        reply.retry == 0 && 0 < reply.result && reply.result < 4
    }
}

impl Range {
    // Of no results at all.
    fn none() -> Range
        ensures { result ≡ no_range }
    {
        Range {
            least: u64::MAX,
            greatest: 0,
        }
    }

    fn with(self, reply: Reply) -> Range
        ensures { result ≡ in_range self (packed reply.result reply.retry) }
    {
        let packed = pack(u64::from(reply.result), reply.retry);
        Range {
            least: packed.min(self.least),
            greatest: packed.max(self.greatest),
        }
    }
}

impl First {
    fn of(reply: Reply) -> First
        ensures { result ≡ first_by reply }
    {
        First {
            code: u64::from(reply.result),
            retry: reply.retry,
            agreeing: 1,
        }
    }

    // Whether a reply has the same result. Before the first reply nobody has it. One test after the other: as one expression the compiler tries all three of every reply, and a count whose replies all differ took 63 instructions more.
    #[tactic(auto, unfolding(crate::specs::Inner::Tallies::is_said, rules::specs::Tests::both))]
    fn is_said(self, reply: Reply) -> bool
        ensures { result ≡ is_said self reply }
    {
        if reply.retry != self.retry {
            return false;
        }
        if u64::from(reply.result) != self.code {
            return false;
        }
        self.agreeing != 0
    }

    fn agreed(self) -> First
        ensures { result ≡ agreed_by self }
    {
        First {
            agreeing: one_more(self.agreeing),
            ..self
        }
    }
}

impl Others {
    // RETRY is asked first, and the two others without a branch: of seven that differ most are RETRY.
    fn with(self, reply: Reply) -> Others
        ensures { result ≡ with_other self reply }
    {
        let others = Others {
            number: one_more(self.number),
            results: self.results.with(reply),
            ..self
        };
        if reply.result == 4 {
            return others;
        }
        Others {
            oks: more_if(self.oks, reply.result == 1),
            aborts: more_if(self.aborts, reply.result == 2),
            ..others
        }
    }
}

impl Tally {
    pub fn none() -> Tally
        ensures { result ≡ no_tally }
    {
        Tally {
            seen: 0,
            view: 0,
            first: First {
                code: 0,
                retry: 0,
                agreeing: 0,
            },
            others: Others {
                number: 0,
                oks: 0,
                aborts: 0,
                results: Range::none(),
            },
            finals: Range::none(),
        }
    }

    // Something was bad. All boxes are seen then, so that whatever follows is bad too.
    fn spoil(self) -> Tally
        ensures { result ≡ spoilt self }
    {
        Tally { seen: 255, ..self }
    }

    // Whether a view is that of the replies before, if there was one. For all replies but the first one comparison is enough.
    #[tactic(auto, unfolding(crate::specs::Inner::Tallies::has_view))]
    fn has_view(self, view: u64) -> bool
        ensures { result ≡ has_view self view }
    {
        view == self.view || self.seen == 0
    }

    #[tactic(auto, unfolding(crate::specs::Inner::Tallies::with_finality))]
    fn with_finality(mut self, reply: Reply) -> Tally
        ensures { result ≡ with_finality self reply }
    {
        if reply.finality == 1 {
            self.finals = self.finals.with(reply);
        }
        self
    }

    // With the first reply's result it is by the rules, and is one more that agrees. Each field is changed in its place, since a tally that is built anew in each branch took more instructions.
    #[tactic(auto, using(crate::proofs::Steps::one_agrees, crate::proofs::Steps::one_begins, crate::proofs::Steps::one_differs, crate::proofs::Steps::bad_result_lem))]
    fn with_result(mut self, reply: Reply) -> Tally
        ensures { result ≡ with_result self reply }
    {
        if self.first.is_said(reply) {
            self.first = self.first.agreed();
            return self;
        }
        if !result_valid(reply) {
            return self.spoil();
        }
        if self.first.agreeing == 0 {
            self.first = First::of(reply);
        } else {
            self.others = self.others.with(reply);
        }
        self
    }

    // One reply more. "Final or not" is 1 or 0.
    #[tactic(auto, using(crate::proofs::Steps::far_box, crate::proofs::Steps::old_box, crate::proofs::Steps::bad_final, crate::proofs::Steps::next_reply, crate::proofs::Steps::other_view_lem))]
    pub fn with(mut self, reply: Reply) -> Tally
        ensures { result ≡ with_reply self reply }
    {
        let view = u64::from(reply.view);
        if 7 <= reply.boxnumber
            || (self.seen >> reply.boxnumber) % 2 == 1
            || 1 < reply.finality
            || !self.has_view(view)
        {
            return self.spoil();
        }
        self.seen |= power(reply.boxnumber);
        self.view = view;
        self.with_finality(reply).with_result(reply)
    }
}
