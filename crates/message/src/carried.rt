// The tests of what messages carry: the body of a proposal, which ends its message, and what the codes of a result and of an outcome stand for.
ghost use Rattle.std.specs.Prelude.{◌≡◌, ◌<◌, ◌≤◌, ◌+◌, ◌*◌, eqb, length};
ghost use Rattle.std.specs.Bool.{then_some};
ghost use Rattle.std.specs.Option.{option_map};
ghost use Rattle.rules.specs.Tests.{both};
ghost use Rattle.rules.specs.Stamps.{is_stamp, is_register, body_by_rule};
ghost use Rattle.rows.specs.Bytes.{body_length};
ghost use Rattle.rows.specs.Fields.{result_numbered, verdict_numbered};
ghost use Rattle.rows.specs.Read.{body_at};
ghost use Rattle.rows.specs.Inner.Results.{result_meant, verdict_meant};
ghost use Rattle.message.specs.Messages.{result_by_code, verdict_by_code};

use rows::result::{CheckResult, Verdict};
use rows::{body, row};

// Where the body of message 1 lies: behind the kind, the stamp and the two counts.
pub const PREPARE_BODY: usize = 11;

// And that of message 3, which has the outcome besides.
pub const OUTCOME_BODY: usize = 12;

// A body at the start of lent bytes, for a stamp above 0: its counts, then its accesses.
#[tactic(auto, using(rules::proofs::Chains::chain, crate::proofs::Bodies::body_tests, crate::proofs::Bodies::few_accesses))]
fn body_valid(bytes: &[u8], reads: u8, writes: u8, stamp: u64) -> bool
    requires { (9 * (reads + writes) ≤ length bytes.now) × (0 < stamp) }
    ensures { result ≡ body_by_rule stamp (body_at bytes.now 0 reads writes) }
{
    body::counts_valid(reads, writes)
        && body::contents_valid(bytes, usize::from(reads), usize::from(writes), stamp)
}

// A message ends with the body that begins at a place, and no sooner or later.
#[tactic(auto, using(rules::proofs::Chains::chain, rows::proofs::Bodies::body_in_part), unfolding(rules::specs::Tests::both))]
fn ending_valid(message: &[u8], at: usize, reads: u8, writes: u8, stamp: u64) -> bool
    requires { (at ≤ length message.now) × (0 < stamp) }
    ensures { result ≡ both (eqb (length message.now) (at + body_length reads writes)) (body_by_rule stamp (body_at message.now at reads writes)) }
{
    message.len() - at == row::body_length(reads, writes)
        && body_valid(&message[at..], reads, writes, stamp)
}

// A stamp, and the body of its transaction up to the message's end.
#[tactic(auto, using(rules::proofs::Chains::chain, rules::proofs::Tables::stamp_positive))]
pub fn proposal_valid(message: &[u8], at: usize, reads: u8, writes: u8, stamp: u64) -> bool
    requires { at ≤ length message.now }
    ensures { result ≡ both (is_stamp stamp) (both (eqb (length message.now) (at + body_length reads writes)) (body_by_rule stamp (body_at message.now at reads writes))) }
{
    row::stamp_valid(stamp) && ending_valid(message, at, reads, writes, stamp)
}

// The result of a code with its retry stamp: 1 to 4, with a stamp by the rows' rule, and none for all others.
#[tactic(auto, using(rules::proofs::Chains::tests), unfolding(crate::specs::Messages::result_by_code, rows::specs::Fields::result_numbered, rows::specs::Fields::retry_by_code, rules::specs::Tests::both, rules::specs::Tests::either))]
pub fn result_of(code: u8, retry: u64) -> Option<CheckResult>
    ensures { option_map result_meant result ≡ then_some (result_by_code code retry) (result_numbered code retry) }
{
    match (code, retry) {
        (1, 0) => Some(CheckResult::Ok),
        (2, 0) => Some(CheckResult::Abort),
        (3, 0) => Some(CheckResult::Abstain),
        (4, stamp) if row::stamp_valid(stamp) => Some(CheckResult::Retry { stamp }),
        _ => None,
    }
}

// The outcome of a code: 1 commit or 2 abort, and none for all others.
#[tactic(auto, using(rules::proofs::Chains::tests), unfolding(crate::specs::Messages::verdict_by_code, rows::specs::Fields::verdict_numbered, rules::specs::Tests::both))]
pub fn verdict_of(code: u8) -> Option<Verdict>
    ensures { option_map verdict_meant result ≡ then_some (verdict_by_code code) (verdict_numbered code) }
{
    match code {
        1 => Some(Verdict::Commit),
        2 => Some(Verdict::Abort),
        _ => None,
    }
}

// A stamp and a register.
#[tactic(auto, using(rules::proofs::Chains::chain), unfolding(rules::specs::Stamps::is_register, rules::specs::Tests::both))]
pub fn stamp_and_register_valid(stamp: u64, register: u8) -> bool
    ensures { result ≡ both (is_stamp stamp) (is_register register) }
{
    row::stamp_valid(stamp) && register < 64
}
