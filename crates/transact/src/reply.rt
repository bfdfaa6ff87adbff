// The reply: its fields, and its 24 bytes.
ghost use Rattle.std.specs.Prelude.{◌≡◌, ◌≤◌, length};
ghost use Rattle.wire.specs.Parts.{replaced};
ghost use Rattle.numbers.specs.Refusals.{refusal_code};
ghost use Rattle.rules.specs.Answers.{refusal};
ghost use Rattle.transact.specs.Replies.{reply_as, reply_bytes};
ghost use Rattle.transact.specs.Inner.DoneReplies.{done_reply, reply_told};

use numbers::Refusal;
use table::header::Header;

// How many bytes a reply has.
pub const LENGTH: usize = 24;

// The fields of a reply, in the order in which they stand: number, kind and state are bytes of it.
#[derive(Clone, Copy, Debug, PartialEq, Eq)]
pub struct Reply {
    pub number: u8,
    pub kind: u8,
    pub boxnumber: u8,
    pub state: u8,
    pub view: u32,
    pub stamp: u64,
    pub value: u64,
}

impl Reply {
    // The reply to a message that was taken, with box and view as the header has them.
    pub fn taken(h: Header, kind: u8, state: u8, stamp: u64, value: u64) -> Reply
        ensures { result ≡ done_reply h kind state stamp value }
    {
        Reply {
            number: 0,
            kind,
            boxnumber: h.boxnumber,
            state,
            view: h.view,
            stamp,
            value,
        }
    }

    // The reply of a refused call: its number and nothing else.
    #[tactic(auto, unfolding(rules::specs::Answers::refusal))]
    pub fn refusal(number: u8) -> Reply
        ensures { result ≡ reply_as (refusal number) }
    {
        Reply {
            number,
            kind: 0,
            boxnumber: 0,
            state: 0,
            view: 0,
            stamp: 0,
            value: 0,
        }
    }

    // The reply that is written for a message, be it taken or refused.
    pub fn told(said: Result<Reply, Refusal>) -> Reply
        ensures { result ≡ reply_told said }
    {
        match said {
            Ok(reply) => reply,
            Err(refused) => Reply::refusal(refused.number()),
        }
    }
}

// Writes a reply at the start of its buffer.
pub fn write(s: &mut [u8], r: Reply)
    requires { 24 ≤ length s.old }
    ensures { s.new ≡ replaced s.old 0 (reply_bytes r) }
{
    wire::put_four_u8(s, 0, r.number, r.kind, r.boxnumber, r.state);
    wire::put_u32(s, 4, r.view);
    wire::put_u64(s, 8, r.stamp);
    wire::put_u64(s, 16, r.value);
}
