// The answer call: any bytes in all three buffers.
ghost use Rattle.std.specs.Prelude.{◌≡◌, ◌+◌, ◌*◌, ◌≤◌, length};
ghost use Rattle.numbers.specs.Inner.Ended.{ended_with};
ghost use Rattle.rules.specs.Tables.{valley};
ghost use Rattle.table.specs.Images.{format_one};
ghost use Rattle.table.specs.Parse.{parse};
ghost use Rattle.seek.specs.Inner.Limits.{limited};
ghost use Rattle.transact.specs.Inner.DoneReplies.{Tells};
ghost use Rattle.answer.specs.Inner.BoxAnswers.{heard_reply, heard_buffer, heard_compared};
ghost use Rattle.answer.specs.Calls.{call_number, call_table, call_reply, call_compared};

use crate::serve;
use numbers::Refusal;
use rows::lookup::Compared;
use table::model::Model;
use table::{header, image};
use transact::reply;
use transact::reply::Reply;

// The reply to any bytes of a message, by the table of at most `limit` rows that a buffer begins with, or by none.
fn respond(table: &mut [u8], message: &[u8], limit: u16) -> Compared<Result<Reply, Refusal>>
    requires { (limit ≤ 512) × ((limited limit).least_buffer ≤ length table.old) }
    ensures reply_value { Tells result.found (heard_reply (limited limit) message.now (parse format_one (limited limit) table.old)) × (result.compared ≡ heard_compared (limited limit) message.now (parse format_one (limited limit) table.old)) }
    ensures table_after { table.new ≡ heard_buffer (limited limit) message.now table.old (parse format_one (limited limit) table.old) }
{
    let model = Model {
        limit,
        least: header::LENGTH + seek::GREATEST_ROW * limit as usize,
    };
    let Some(_) = image::find(table, model) else {
        return Compared::without_search(Err(Refusal::BadTable));
    };
    let n = header::read(table).n;
    let asked = message::kinds::read(message, n, model);
    serve::serve(table, message, asked, limit)
}

// A box's answer: whether it is done or what it is refused for, and the rows compared beside it; the table and the reply are left in their buffers.
pub fn answer(table: &mut [u8], message: &[u8], reply: &mut [u8]) -> Compared<Result<(), Refusal>>
    ensures number_value { (ended_with result.found ≡ call_number valley table.old message.now reply.old) × (result.compared ≡ call_compared valley table.old message.now reply.old) }
    ensures table_after { table.new ≡ call_table valley table.old message.now reply.old }
    ensures reply_after { reply.new ≡ call_reply valley table.old message.now reply.old }
{
    let model = Model::valley();
    if table.len() < model.least || reply.len() < reply::LENGTH {
        return Compared::without_search(Err(Refusal::SmallBuffer));
    }
    let said = respond(table, message, model.limit);
    reply::write(reply, Reply::told(said.found));
    said.with(said.found.map(|_| ()))
}
