// Messages 3 and 4: an outcome proposed and finalised.
ghost use Rattle.std.specs.Prelude.{◌≡◌, true, ℕ, ◌+◌, ◌*◌, ◌≤◌, length};
ghost use Rattle.rules.specs.Stamps.{Body, is_stamp, counts_by_rule};
ghost use Rattle.rules.specs.Tables.{Model, valley};
ghost use Rattle.rules.specs.Messages.{Message.propose_outcome, Message.finalise_outcome, noted_as};
ghost use Rattle.rules.specs.Circumstances.{opposite_outcome};
ghost use Rattle.rows.specs.Fields.{outcome_numbered};
ghost use Rattle.rows.specs.Bytes.{body_length};
ghost use Rattle.rows.specs.Read.{body_at};
ghost use Rattle.rows.specs.Inner.Results.{verdict_meant};
ghost use Rattle.rows.specs.Inner.Places.{place_of};
ghost use Rattle.rows.specs.declared.lookup.Place.TheVariants.{Held};
ghost use Rattle.table.specs.Images.{format_one};
ghost use Rattle.table.specs.Parse.{table_at, BeginsWithImage};
ghost use Rattle.message.specs.Inner.MeantMessages.{outcome_body};
ghost use Rattle.seek.specs.Inner.Limits.{limited};
ghost use Rattle.transact.specs.Inner.DoneReplies.{Tells};
ghost use Rattle.transact.specs.Inner.Served.{served_reply, served_buffer, served_compared};
ghost use Rattle.seek.specs.Inner.Findings.{to_finalise, to_propose};

use crate::add;
use crate::reply::Reply;
use message::carried;
use numbers::Refusal;
use rows::lookup::{Compared, Place};
use rows::result::Verdict;
use rows::row;
use rows::row::RowFields;
use table::header;

// Whether a held outcome byte is the opposite of a verdict.
#[tactic(auto, using(crate::proofs::CodesMeant::opposite_told), unfolding(rules::specs::Tests::both))]
fn opposite(outcome: u8, verdict: Verdict) -> bool
    requires { outcome ≤ 4 }
    ensures { result ≡ opposite_outcome (verdict_meant verdict) (outcome_numbered outcome) }
{
    outcome != 0 && outcome != verdict.code() && outcome != verdict.code() + 2
}

// The outcome byte that a row has after a verdict was noted: a held one stays. It is a byte, since it is stored and told as one.
#[tactic(auto, using(crate::proofs::CodesMeant::noted_first, crate::proofs::CodesMeant::noted_stays))]
fn noted_as(verdict: Verdict, outcome: u8) -> u8
    requires { outcome ≤ 4 }
    ensures { (outcome_numbered result ≡ noted_as (verdict_meant verdict) (outcome_numbered outcome)) × (result ≤ 4) }
{
    if outcome == 0 {
        verdict.code()
    } else {
        outcome
    }
}

// Message 3, of a row that the table holds with this body: noted, unless the opposite is held.
fn note_held(table: &mut [u8], index: usize, stamp: u64, verdict: Verdict) -> Result<Reply, Refusal>
    requires { BeginsWithImage valley table.old × (place_of (table_at format_one table.old).rows stamp ≡ Held index) }
    ensures { (M : Model) (x : Body) → to_propose M (table_at format_one table.old) stamp x ≡ Ok (Held index) →
        Tells result (served_reply M (propose_outcome stamp (verdict_meant verdict) x) table.old) × (table.new ≡ served_buffer M (propose_outcome stamp (verdict_meant verdict) x) table.old) }
{
    let held = row::row_at(table, header::LENGTH, index);
    if opposite(held.outcome, verdict) {
        return Err(Refusal::Contradiction);
    }
    let h = header::read(table);
    let outcome = noted_as(verdict, held.outcome);
    edit::state::set_outcome(table, index, outcome);
    Ok(Reply::taken(h, 3, outcome, stamp, 0))
}

// Message 3, propose outcome: noted in the row that is held with this body, or in a new one if there is room.
pub fn propose_outcome(
    table: &mut [u8],
    message: &[u8],
    stamp: u64,
    verdict: Verdict,
    reads: u8,
    writes: u8,
    limit: u16,
) -> Compared<Result<Reply, Refusal>>
    requires begins_with_image { BeginsWithImage valley table.old × (limit ≤ 512) × ((limited limit).least_buffer ≤ length table.old) }
    requires stamp_value { (is_stamp stamp ≡ true) × (counts_by_rule reads writes ≡ true) × (outcome_body + body_length reads writes ≤ length message.now) }
    ensures reply_value { Tells result.found (served_reply (limited limit) (propose_outcome stamp (verdict_meant verdict) (body_at message.now outcome_body reads writes)) table.old) × (result.compared ≡ served_compared (table_at format_one table.old) (propose_outcome stamp (verdict_meant verdict) (body_at message.now outcome_body reads writes))) }
    ensures table_after { table.new ≡ served_buffer (limited limit) (propose_outcome stamp (verdict_meant verdict) (body_at message.now outcome_body reads writes)) table.old }
{
    let row = RowFields {
        stamp,
        retry: 0,
        offset: carried::OUTCOME_BODY as u32,
        reads,
        writes,
        prepare: 0,
        outcome: verdict.code(),
    };
    let sought = seek::row_to_propose(table, message, row, limit);
    match sought.found {
        Err(refusal) => sought.with(Err(refusal)),
        Ok(Place::Held { row: index }) => sought.with(note_held(table, index, stamp, verdict)),
        Ok(Place::Absent { row: index }) => {
            sought.with(Ok(add::add_new(table, index, row, message, 3, row.outcome)))
        }
    }
}

// Message 4, of a row that the table holds: done, if an outcome is held and not the opposite one.
fn finalise_held(
    table: &mut [u8],
    index: usize,
    stamp: u64,
    verdict: Verdict,
) -> Result<Reply, Refusal>
    requires { BeginsWithImage valley table.old × (place_of (table_at format_one table.old).rows stamp ≡ Held index) }
    ensures { (view : ℕ) → to_finalise (table_at format_one table.old) stamp view ≡ Ok index →
        Tells result (served_reply valley (finalise_outcome stamp view (verdict_meant verdict)) table.old) × (table.new ≡ served_buffer valley (finalise_outcome stamp view (verdict_meant verdict)) table.old) }
{
    let held = row::row_at(table, header::LENGTH, index);
    if held.outcome == 0 {
        return Err(Refusal::Unknown);
    }
    if opposite(held.outcome, verdict) {
        return Err(Refusal::Contradiction);
    }
    let h = header::read(table);
    let done = verdict.code() + 2;
    edit::state::set_outcome(table, index, done);
    Ok(Reply::taken(h, 4, done, stamp, 0))
}

// Message 4, finalise outcome: in this view, of an outcome that is held and not the opposite one.
pub fn finalise_outcome(
    table: &mut [u8],
    stamp: u64,
    view: u32,
    verdict: Verdict,
) -> Compared<Result<Reply, Refusal>>
    requires { BeginsWithImage valley table.old }
    ensures reply_value { Tells result.found (served_reply valley (finalise_outcome stamp view (verdict_meant verdict)) table.old) × (result.compared ≡ served_compared (table_at format_one table.old) (finalise_outcome stamp view (verdict_meant verdict))) }
    ensures table_after { table.new ≡ served_buffer valley (finalise_outcome stamp view (verdict_meant verdict)) table.old }
{
    let sought = seek::row_to_finalise(table, stamp, view);
    match sought.found {
        Err(refusal) => sought.with(Err(refusal)),
        Ok(index) => sought.with(finalise_held(table, index, stamp, verdict)),
    }
}
