// A message arrives at one box.
ghost use Rattle.std.specs.Prelude.{◌≡◌};
ghost use Rattle.numbers.specs.Inner.Ended.{ended_with};
ghost use Rattle.rules.specs.Tables.{valley};
ghost use Rattle.answer.specs.Calls.{call_number, call_table, call_reply};
ghost use Rattle.boxes.specs.Inner.OneBuffer.{buffer_of, with_buffer};

use crate::buffers;
use numbers::Refusal;
use table::model;

// The box answers it by its own table buffer, with the end and the reply of the answer call; the lent buffer is too small if it has no whole table buffer for the box. That of no other box is lent to the call.
pub fn arrive(
    tables: &mut [u8],
    boxnumber: u8,
    message: &[u8],
    reply: &mut [u8],
) -> Result<(), Refusal>
    ensures value { ended_with result ≡ call_number valley (buffer_of valley tables.old boxnumber) message.now reply.old }
    ensures tables_after { tables.new ≡ with_buffer valley tables.old boxnumber (call_table valley (buffer_of valley tables.old boxnumber) message.now reply.old) }
    ensures reply_after { reply.new ≡ call_reply valley (buffer_of valley tables.old boxnumber) message.now reply.old }
{
    let from = buffers::place(boxnumber);
    let to = from + model::VALLEY_BUFFER;
    if tables.len() < to {
        return Err(Refusal::SmallBuffer);
    }
    answer::call::answer(&mut tables[from..to], message, reply).found
}
