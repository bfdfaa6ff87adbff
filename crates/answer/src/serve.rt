// A message that was read, handed to the function of its kind.
ghost use Rattle.std.specs.Prelude.{◌≡◌, ◌+◌, ◌*◌, ◌≤◌, length};
ghost use Rattle.rules.specs.Tables.{valley};
ghost use Rattle.table.specs.Headers.{header_at};
ghost use Rattle.table.specs.Images.{format_one};
ghost use Rattle.message.specs.Inner.MeantMessages.{meant, message_meant, Coded};
ghost use Rattle.message.specs.Messages.{message_to};
ghost use Rattle.seek.specs.Inner.Limits.{limited};
ghost use Rattle.table.specs.Parse.{table_at, BeginsWithImage};
ghost use Rattle.transact.specs.Inner.DoneReplies.{Tells};
ghost use Rattle.transact.specs.Inner.Served.{served_reply, served_buffer, served_compared};
ghost use Rattle.answer.specs.Inner.BoxAnswers.{answer_reply, answer_buffer, answer_compared};

use crate::{read, views};
use message::kinds::Message;
use numbers::Refusal;
use rows::lookup::Compared;
use transact::reply::Reply;
use transact::{outcome, prepare};

// What is said to a message, with the rows that were compared for it.
pub type Said = Compared<Result<Reply, Refusal>>;

// The answer to one of the seven messages. Messages 5 to 7 seek no row.
fn serve_message(table: &mut [u8], message: &[u8], asked: Message, limit: u16) -> Said
    requires begins_with_image { BeginsWithImage valley table.old × (limit ≤ 512) × ((limited limit).least_buffer ≤ length table.old) }
    requires asked_value { (meant format_one message.now (Some asked) ≡ message_to format_one (limited limit) (header_at table.old).n message.now) × Coded (Some asked) }
    ensures reply_value { Tells result.found (served_reply (limited limit) (message_meant format_one message.now asked) table.old) × (result.compared ≡ served_compared (table_at format_one table.old) (message_meant format_one message.now asked)) }
    ensures table_after { table.new ≡ served_buffer (limited limit) (message_meant format_one message.now asked) table.old }
{
    match asked {
        Message::ProposePrepare {
            stamp,
            reads,
            writes,
        } => prepare::propose_prepare(table, message, stamp, reads, writes, limit),
        Message::FinalisePrepare {
            stamp,
            view,
            result,
        } => prepare::finalise_prepare(table, stamp, view, result),
        Message::ProposeOutcome {
            stamp,
            verdict,
            reads,
            writes,
        } => outcome::propose_outcome(table, message, stamp, verdict, reads, writes, limit),
        Message::FinaliseOutcome {
            stamp,
            view,
            verdict,
        } => outcome::finalise_outcome(table, stamp, view, verdict),
        Message::ChangeView { view } => Compared::without_search(views::change_view(table, view)),
        Message::StartView { view } => {
            Compared::without_search(views::start_view(table, &message[5..], view))
        }
        Message::ReadRegister { stamp, register } => {
            Compared::without_search(read::read_register(table, stamp, register))
        }
    }
}

// The answer to a message that was read, or to none.
pub fn serve(table: &mut [u8], message: &[u8], asked: Option<Message>, limit: u16) -> Said
    requires begins_with_image { BeginsWithImage valley table.old × (limit ≤ 512) × ((limited limit).least_buffer ≤ length table.old) }
    requires asked_value { (meant format_one message.now asked ≡ message_to format_one (limited limit) (header_at table.old).n message.now) × Coded asked }
    ensures reply_value { Tells result.found (answer_reply (limited limit) (meant format_one message.now asked) table.old) × (result.compared ≡ answer_compared (meant format_one message.now asked) (table_at format_one table.old)) }
    ensures table_after { table.new ≡ answer_buffer (limited limit) (meant format_one message.now asked) table.old }
{
    let Some(asked) = asked else {
        return Compared::without_search(Err(Refusal::BadMessage));
    };
    serve_message(table, message, asked, limit)
}
