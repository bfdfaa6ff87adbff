// Messages 1 and 2: a prepare proposed and finalised.
ghost use Rattle.std.specs.Prelude.{◌≡◌, true, ℕ, ◌+◌, ◌*◌, ◌≤◌, ◌<◌, length};
ghost use Rattle.rules.specs.Stamps.{Body, is_stamp, counts_by_rule};
ghost use Rattle.rules.specs.Tables.{Model, valley, result_by_rule};
ghost use Rattle.rules.specs.Messages.{Message.propose_prepare, Message.finalise_prepare};
ghost use Rattle.rules.specs.Circumstances.{unequal_final};
ghost use Rattle.rules.specs.Answers.{proposal_check};
ghost use Rattle.rows.specs.Bytes.{body_length};
ghost use Rattle.rows.specs.Fields.{row_length, prepare_numbered, retry_by_code};
ghost use Rattle.rows.specs.Read.{body_at};
ghost use Rattle.rows.specs.Inner.Results.{result_meant};
ghost use Rattle.rows.specs.Inner.Rows.{size_of, BodyInside};
ghost use Rattle.rows.specs.Inner.Places.{place_of};
ghost use Rattle.rows.specs.declared.lookup.Place.TheVariants.{Held, Absent};
ghost use Rattle.table.specs.Headers.{header_at};
ghost use Rattle.table.specs.Images.{format_one};
ghost use Rattle.table.specs.Parse.{table_at, BeginsWithImage};
ghost use Rattle.message.specs.Inner.MeantMessages.{prepare_body};
ghost use Rattle.seek.specs.Inner.Limits.{limited};
ghost use Rattle.transact.specs.Inner.DoneReplies.{Tells};
ghost use Rattle.transact.specs.Inner.Served.{served_reply, served_buffer, served_compared, answered_byte};
ghost use Rattle.seek.specs.Inner.Findings.{to_finalise, to_propose};

use crate::add;
use crate::reply::Reply;
use checks::lent;
use message::carried;
use numbers::Refusal;
use rows::lookup::{Compared, Place};
use rows::result::CheckResult;
use rows::row;
use rows::row::RowFields;
use table::header;

// The prepare byte that answers for a held row: its own, or what its outcome says if it has none. It is a byte, since it is stored and told as one.
#[tactic(auto, unfolding(crate::specs::Inner::Served::answered_byte, rules::specs::Tests::either))]
fn answered(prepare: u8, outcome: u8) -> u8
    ensures { result ≡ answered_byte prepare outcome }
{
    if prepare != 0 {
        return prepare;
    }
    match outcome {
        1 | 3 => 1,
        _ => 2,
    }
}

// Message 1, of a row that the table holds with this body: what it holds is answered, and no check is made.
fn answer_held(table: &mut [u8], index: usize, stamp: u64) -> Reply
    requires { BeginsWithImage valley table.old × (place_of (table_at format_one table.old).rows stamp ≡ Held index) }
    ensures { (M : Model) (x : Body) → to_propose M (table_at format_one table.old) stamp x ≡ Ok (Held index) →
        Tells (Ok result) (served_reply M (propose_prepare stamp x) table.old) × (table.new ≡ served_buffer M (propose_prepare stamp x) table.old) }
{
    let held = row::row_at(table, header::LENGTH, index);
    let h = header::read(table);
    let prepare = answered(held.prepare, held.outcome);
    edit::state::set_prepare(table, index, prepare, held.retry);
    Reply::taken(h, 1, prepare, stamp, held.retry)
}

// The result that message 1 gets for a stamp that the table does not hold: its body lies in the message.
fn check_new(table: &[u8], message: &[u8], row: RowFields) -> CheckResult
    requires { BeginsWithImage valley table.now × BodyInside message.now row }
    ensures { result_meant result ≡ proposal_check (table_at format_one table.now).rows row.stamp (body_at message.now row.offset row.reads row.writes) }
{
    let h = header::read(table);
    let rows = lent::Rows {
        image: table,
        begin: header::LENGTH,
        count: h.rows as usize,
    };
    checks::day::check(rows, row.stamp, lent::Body::of(message, row))
}

// Message 1, of a stamp that the table does not hold: a row with the check's tentative result.
fn add_checked(table: &mut [u8], message: &[u8], index: usize, row: RowFields) -> Reply
    requires begins_with_image { BeginsWithImage valley table.old × (place_of (table_at format_one table.old).rows row.stamp ≡ Absent index) × BodyInside message.now row × (counts_by_rule row.reads row.writes ≡ true) × (row.outcome ≡ 0) }
    requires table_bound { ((header_at table.old).rows < 65536) × ((header_at table.old).length + row_length + size_of row ≤ length table.old) × ((header_at table.old).length + row_length + size_of row < 4294967296) }
    ensures { (M : Model) → to_propose M (table_at format_one table.old) row.stamp (body_at message.now row.offset row.reads row.writes) ≡ Ok (Absent index) →
        Tells (Ok result) (served_reply M (propose_prepare row.stamp (body_at message.now row.offset row.reads row.writes)) table.old) × (table.new ≡ served_buffer M (propose_prepare row.stamp (body_at message.now row.offset row.reads row.writes)) table.old) }
{
    let checked = check_new(table, message, row);
    let row = row.with_prepare(checked.code(), checked.retry());
    add::add_new(table, index, row, message, 1, row.prepare)
}

// Message 1, propose prepare: a stamp that is held is answered by its row, a new one is checked and gets a row if there is room.
pub fn propose_prepare(
    table: &mut [u8],
    message: &[u8],
    stamp: u64,
    reads: u8,
    writes: u8,
    limit: u16,
) -> Compared<Result<Reply, Refusal>>
    requires begins_with_image { BeginsWithImage valley table.old × (limit ≤ 512) × ((limited limit).least_buffer ≤ length table.old) }
    requires stamp_value { (is_stamp stamp ≡ true) × (counts_by_rule reads writes ≡ true) × (prepare_body + body_length reads writes ≤ length message.now) }
    ensures reply_value { Tells result.found (served_reply (limited limit) (propose_prepare stamp (body_at message.now prepare_body reads writes)) table.old) × (result.compared ≡ served_compared (table_at format_one table.old) (propose_prepare stamp (body_at message.now prepare_body reads writes))) }
    ensures table_after { table.new ≡ served_buffer (limited limit) (propose_prepare stamp (body_at message.now prepare_body reads writes)) table.old }
{
    let row = RowFields {
        stamp,
        retry: 0,
        offset: carried::PREPARE_BODY as u32,
        reads,
        writes,
        prepare: 0,
        outcome: 0,
    };
    let sought = seek::row_to_propose(table, message, row, limit);
    match sought.found {
        Err(refusal) => sought.with(Err(refusal)),
        Ok(Place::Held { row: index }) => sought.with(Ok(answer_held(table, index, stamp))),
        Ok(Place::Absent { row: index }) => {
            sought.with(Ok(add_checked(table, message, index, row)))
        }
    }
}

// Whether a held prepare byte with its retry stamp is a final result other than this one.
#[tactic(auto, using(crate::proofs::CodesMeant::unequal_told), unfolding(rules::specs::Tests::both))]
fn unequal_final(prepare: u8, held: u64, given: CheckResult) -> bool
    requires { (prepare ≤ 8) × (retry_by_code prepare held ≡ true) }
    ensures { result ≡ unequal_final (result_meant given) (prepare_numbered prepare held) }
{
    prepare > 4 && (given.code() != prepare - 4 || given.retry() != held)
}

// Message 2, of a row that the table holds: final with this result, if a prepare is held and no other final one.
fn finalise_held(
    table: &mut [u8],
    index: usize,
    stamp: u64,
    given: CheckResult,
) -> Result<Reply, Refusal>
    requires { BeginsWithImage valley table.old × (place_of (table_at format_one table.old).rows stamp ≡ Held index) × (result_by_rule (result_meant given) ≡ true) }
    ensures { (view : ℕ) → to_finalise (table_at format_one table.old) stamp view ≡ Ok index →
        Tells result (served_reply valley (finalise_prepare stamp view (result_meant given)) table.old) × (table.new ≡ served_buffer valley (finalise_prepare stamp view (result_meant given)) table.old) }
{
    let held = row::row_at(table, header::LENGTH, index);
    if held.prepare == 0 {
        return Err(Refusal::Unknown);
    }
    if unequal_final(held.prepare, held.retry, given) {
        return Err(Refusal::Contradiction);
    }
    let h = header::read(table);
    let prepare = given.code() + 4;
    let retry = given.retry();
    edit::state::set_prepare(table, index, prepare, retry);
    Ok(Reply::taken(h, 2, prepare, stamp, retry))
}

// Message 2, finalise prepare: in this view, of a prepare that is held, and not against another final result.
pub fn finalise_prepare(
    table: &mut [u8],
    stamp: u64,
    view: u32,
    given: CheckResult,
) -> Compared<Result<Reply, Refusal>>
    requires { BeginsWithImage valley table.old × (result_by_rule (result_meant given) ≡ true) }
    ensures reply_value { Tells result.found (served_reply valley (finalise_prepare stamp view (result_meant given)) table.old) × (result.compared ≡ served_compared (table_at format_one table.old) (finalise_prepare stamp view (result_meant given))) }
    ensures table_after { table.new ≡ served_buffer valley (finalise_prepare stamp view (result_meant given)) table.old }
{
    let sought = seek::row_to_finalise(table, stamp, view);
    match sought.found {
        Err(refusal) => sought.with(Err(refusal)),
        Ok(index) => sought.with(finalise_held(table, index, stamp, given)),
    }
}
