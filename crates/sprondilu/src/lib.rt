// The C boundary: what box firmware and the host program link. include/sprondilu.h says the same in C's words.
//
// A `&[u8]` passes as a pointer and a length. That the pointers are good is assumed and proved by nobody; all else is the crates' below.
#![tactic(auto)]

ghost use Rattle.std.specs.Prelude.{◌≡◌, ◌<◌, ◌^◌};
ghost use Rattle.rules.specs.Tables.{valley};
ghost use Rattle.table.specs.Images.{format_one};
ghost use Rattle.table.specs.Parse.{parse, image_found};
ghost use Rattle.table.specs.Fresh.{fresh_number, fresh_buffer};
ghost use Rattle.answer.specs.Calls.{call_number, call_table, call_reply, call_compared};
ghost use Rattle.merge.specs.Calls as merging;
ghost use Rattle.count.specs.Answers.{answer_as};
ghost use Rattle.count.specs.Calls.{count_of, count_bytes};
ghost use Rattle.sprondilu.specs.Calls.{valid_answer, compared_answer, result_word, count_answer};
ghost use Rattle.sprondilu.specs.Inner.Words.{ResultFits};

use count::answer::Counted;
use numbers::Refusal;
use replies::held::Reply;
use table::model::Model;

// The fresh table of a box, at the start of a table buffer; the answer is the number.
#[unsafe(no_mangle)]
pub extern "C" fn sprondilu_fresh(table: &mut [u8], n: u8, boxnumber: u8) -> u8
    ensures value { result ≡ fresh_number valley table.old n boxnumber }
    ensures table_after { table.new ≡ fresh_buffer valley table.old n boxnumber }
{
    numbers::number_of(table::fresh::fresh(table, n, boxnumber))
}

// A box's answer to one message: the number. Table and reply are left in their buffers.
#[unsafe(no_mangle)]
pub extern "C" fn sprondilu_answer(table: &mut [u8], message: &[u8], reply: &mut [u8]) -> u8
    ensures value { result ≡ call_number valley table.old message.now reply.old }
    ensures table_after { table.new ≡ call_table valley table.old message.now reply.old }
    ensures reply_after { reply.new ≡ call_reply valley table.old message.now reply.old }
{
    numbers::number_of(answer::call::answer(table, message, reply).found)
}

// The same answer, with the rows that were compared to find the row of the message's stamp: number and rows in one word.
#[unsafe(no_mangle)]
pub extern "C" fn sprondilu_answer_compared(
    table: &mut [u8],
    message: &[u8],
    reply: &mut [u8],
) -> u64
    ensures value { result ≡ compared_answer (call_number valley table.old message.now reply.old) (call_compared valley table.old message.now reply.old) }
    ensures table_after { table.new ≡ call_table valley table.old message.now reply.old }
    ensures reply_after { reply.new ≡ call_reply valley table.old message.now reply.old }
{
    let answered = answer::call::answer(table, message, reply);
    let number = numbers::number_of(answered.found);
    u64::from(number) + 65536 * answered.compared as u64
}

// The merge for a view of the images laid end to end in a run: the number. The merged image is left at the start of the output buffer.
#[unsafe(no_mangle)]
pub extern "C" fn sprondilu_merge(run: &[u8], view: u32, out: &mut [u8]) -> u8
    ensures value { result ≡ merging.call_number valley run.now view out.old }
    ensures out_after { out.new ≡ merging.call_output valley run.now view out.old }
{
    numbers::number_of(merge::call::merge(run, view, out))
}

// Whether lent bytes begin with an image, and how long it is: number and length in one word.
#[unsafe(no_mangle)]
#[tactic(auto, using(table::proofs::Found::found_at_most))]
pub extern "C" fn sprondilu_valid(bytes: &[u8]) -> u64
    ensures { result ≡ valid_answer (image_found format_one (parse format_one valley bytes.now)) }
{
    let Some(length) = table::image::find(bytes, Model::valley()) else {
        return u64::from(Refusal::BadTable.number());
    };
    65536 * length as u64
}

// A result and its retry stamp in the bits of an answer. A stamp has 48 bits.
fn result_word(kind: u64, res: u8, retry: u64) -> u64
    requires { (kind < 4) × (res < 8) × (retry < 2 ^ 48) }
    ensures { result ≡ result_word kind res retry }
{
    256 * kind + 1024 * u64::from(res) + 65536 * retry
}

// The word of an answer, which is taken apart: its number if it is refused, and otherwise fast, else slow, else wait, which is 0. The kinds are the numbers that the C header gives them.
fn answer_word(answer: Result<Counted, Refusal>) -> u64
    requires { ResultFits answer }
    ensures { result ≡ count_answer answer }
{
    let counted = match answer {
        Ok(counted) => counted,
        Err(refusal) => return u64::from(refusal.number()),
    };
    let Counted::Fast { result, retry } = counted else {
        let Counted::Slow { result, retry } = counted else {
            return 0;
        };
        return result_word(2, result, retry);
    };
    result_word(1, result, retry)
}

// The coordinator's count of replies lent as bytes: number, kind, result and retry stamp in one word.
#[unsafe(no_mangle)]
pub extern "C" fn sprondilu_count(n: u8, replies: &[u8]) -> u64
    ensures { result ≡ count_answer (answer_as (count_bytes n replies.now)) }
{
    answer_word(count::call::count(n, replies))
}

// The coordinator's count of replies lent as a list of small records, in the same word.
#[unsafe(no_mangle)]
pub extern "C" fn sprondilu_count_records(n: u8, records: &[Reply]) -> u64
    ensures { result ≡ count_answer (answer_as (count_of n records.now)) }
{
    answer_word(count::lent::count(n, records))
}
