// The seven messages, each read by its own small function: its exact length, its codes, its stamp, its body.
ghost use Rattle.std.specs.Prelude.{◌≡◌, ℕ, ◌<◌};
ghost use Rattle.rules.specs.Tables as rules;
ghost use Rattle.table.specs.Images.{format_one};
ghost use Rattle.table.specs.Inner.Models.{model_of};
ghost use Rattle.message.specs.Messages.{prepare_proposal, prepare_final, outcome_proposal, outcome_final, view_change, view_start, register_read, keeping_rules, message_to};
ghost use Rattle.message.specs.Inner.MeantMessages.{meant, Coded};

use crate::{carried, start};
use rows::result::{CheckResult, Verdict};
use rows::row;
use table::model::Model;

// A message that keeps every rule, by its fields. A body lies behind the counts, at `PREPARE_BODY` or `OUTCOME_BODY`; an image at 5.
#[derive(Clone, Copy, Debug, PartialEq, Eq)]
pub enum Message {
    ProposePrepare {
        stamp: u64,
        reads: u8,
        writes: u8,
    },
    FinalisePrepare {
        stamp: u64,
        view: u32,
        result: CheckResult,
    },
    ProposeOutcome {
        stamp: u64,
        verdict: Verdict,
        reads: u8,
        writes: u8,
    },
    FinaliseOutcome {
        stamp: u64,
        view: u32,
        verdict: Verdict,
    },
    ChangeView {
        view: u32,
    },
    StartView {
        view: u32,
    },
    ReadRegister {
        stamp: u64,
        register: u8,
    },
}

// Kind 1, propose prepare. Bytes before the body are read only where they are there.
#[tactic(auto, using(crate::proofs::KeepingRules::proposed_prepare, crate::proofs::KeepingRules::short_prepare))]
fn prepare_proposal(message: &[u8]) -> Option<Message>
    ensures result_value { (M : rules.Model) (n : ℕ) → meant format_one message.now result ≡ keeping_rules M n (prepare_proposal message.now) }
    ensures coded { Coded result }
{
    if message.len() < carried::PREPARE_BODY {
        return None;
    }
    let stamp = wire::u64_at(message, 1);
    let reads = wire::u8_at(message, 9);
    let writes = wire::u8_at(message, 10);
    carried::proposal_valid(message, carried::PREPARE_BODY, reads, writes, stamp).then_some(
        Message::ProposePrepare {
            stamp,
            reads,
            writes,
        },
    )
}

// Kind 2, finalise prepare. Any view of four bytes is one.
#[tactic(auto, using(crate::proofs::KeepingRules::finalised_prepare, crate::proofs::KeepingRules::no_result, crate::proofs::KeepingRules::other_final, crate::proofs::KeepingRules::told_coded, wire::proofs::Numbers::all_of))]
fn prepare_final(message: &[u8]) -> Option<Message>
    ensures result_value { (M : rules.Model) (n : ℕ) → meant format_one message.now result ≡ keeping_rules M n (prepare_final message.now) }
    ensures coded { Coded result }
{
    if message.len() != 22 {
        return None;
    }
    let stamp = wire::u64_at(message, 1);
    let view = wire::u32_at(message, 9);
    let code = wire::u8_at(message, 13);
    let retry = wire::u64_at(message, 14);
    let result = carried::result_of(code, retry)?;
    row::stamp_valid(stamp).then_some(Message::FinalisePrepare {
        stamp,
        view,
        result,
    })
}

// Kind 3, propose outcome.
#[tactic(auto, using(crate::proofs::KeepingRules::proposed_outcome, crate::proofs::KeepingRules::no_proposed_verdict, crate::proofs::KeepingRules::short_outcome))]
fn outcome_proposal(message: &[u8]) -> Option<Message>
    ensures result_value { (M : rules.Model) (n : ℕ) → meant format_one message.now result ≡ keeping_rules M n (outcome_proposal message.now) }
    ensures coded { Coded result }
{
    if message.len() < carried::OUTCOME_BODY {
        return None;
    }
    let stamp = wire::u64_at(message, 1);
    let verdict = carried::verdict_of(wire::u8_at(message, 9))?;
    let reads = wire::u8_at(message, 10);
    let writes = wire::u8_at(message, 11);
    carried::proposal_valid(message, carried::OUTCOME_BODY, reads, writes, stamp).then_some(
        Message::ProposeOutcome {
            stamp,
            verdict,
            reads,
            writes,
        },
    )
}

// Kind 4, finalise outcome.
#[tactic(auto, using(crate::proofs::KeepingRules::finalised_outcome, crate::proofs::KeepingRules::no_final_verdict, crate::proofs::KeepingRules::other_outcome, wire::proofs::Numbers::all_of))]
fn outcome_final(message: &[u8]) -> Option<Message>
    ensures result_value { (M : rules.Model) (n : ℕ) → meant format_one message.now result ≡ keeping_rules M n (outcome_final message.now) }
    ensures coded { Coded result }
{
    if message.len() != 14 {
        return None;
    }
    let stamp = wire::u64_at(message, 1);
    let view = wire::u32_at(message, 9);
    let verdict = carried::verdict_of(wire::u8_at(message, 13))?;
    row::stamp_valid(stamp).then_some(Message::FinaliseOutcome {
        stamp,
        view,
        verdict,
    })
}

// Kind 5, change view: four bytes are always a view.
#[tactic(auto, using(crate::proofs::KeepingRules::changed_view, crate::proofs::KeepingRules::other_change, wire::proofs::Numbers::all_of))]
fn view_change(message: &[u8]) -> Option<Message>
    ensures result_value { (M : rules.Model) (n : ℕ) → meant format_one message.now result ≡ keeping_rules M n (view_change message.now) }
    ensures coded { Coded result }
{
    if message.len() != 5 {
        return None;
    }
    Some(Message::ChangeView {
        view: wire::u32_at(message, 1),
    })
}

// Kind 6, start view: all that follows the view is the image.
#[tactic(auto, using(crate::proofs::KeepingRules::started_view, crate::proofs::KeepingRules::short_start, wire::proofs::Numbers::all_of))]
fn view_start(message: &[u8], n: u8, model: Model) -> Option<Message>
    requires { 0 < n }
    ensures result_value { meant format_one message.now result ≡ keeping_rules (model_of model) n (view_start format_one message.now) }
    ensures coded { Coded result }
{
    if message.len() < 5 {
        return None;
    }
    let view = wire::u32_at(message, 1);
    start::valid(&message[5..], n, view, model).then_some(Message::StartView { view })
}

// Kind 7, read.
#[tactic(auto, using(crate::proofs::KeepingRules::read_register_lem, crate::proofs::KeepingRules::other_read))]
fn register_read(message: &[u8]) -> Option<Message>
    ensures result_value { (M : rules.Model) (n : ℕ) → meant format_one message.now result ≡ keeping_rules M n (register_read message.now) }
    ensures coded { Coded result }
{
    if message.len() != 10 {
        return None;
    }
    let stamp = wire::u64_at(message, 1);
    let register = wire::u8_at(message, 9);
    carried::stamp_and_register_valid(stamp, register).then_some(Message::ReadRegister {
        stamp,
        register,
    })
}

// The message that lent bytes are, for a box of a group of `n`: the first byte is its kind, and no bytes have none.
#[tactic(auto, using(crate::proofs::KeepingRules::first_byte))]
pub fn read(message: &[u8], n: u8, model: Model) -> Option<Message>
    requires { 0 < n }
    ensures result_value { meant format_one message.now result ≡ message_to format_one (model_of model) n message.now }
    ensures coded { Coded result }
{
    match *message.first()? {
        1 => prepare_proposal(message),
        2 => prepare_final(message),
        3 => outcome_proposal(message),
        4 => outcome_final(message),
        5 => view_change(message),
        6 => view_start(message, n, model),
        7 => register_read(message),
        _ => None,
    }
}
