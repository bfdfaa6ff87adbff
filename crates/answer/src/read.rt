// Message 7: what a register holds at a stamp.
ghost use Rattle.rules.specs.Tables.{valley};
ghost use Rattle.rules.specs.Messages.{Message.read_register};
ghost use Rattle.table.specs.Parse.{BeginsWithImage};
ghost use Rattle.transact.specs.Inner.DoneReplies.{Tells};
ghost use Rattle.transact.specs.Inner.Served.{served_reply};

use checks::lent::Rows;
use checks::newest::Written;
use numbers::Refusal;
use table::header;
use transact::reply::Reply;

// The greatest done-commit write of a register at or below a stamp. The table is only looked at.
pub fn read_register(table: &[u8], stamp: u64, register: u8) -> Result<Reply, Refusal>
    requires { BeginsWithImage valley table.now }
    ensures { Tells result (served_reply valley (read_register stamp register) table.now) }
{
    let h = header::read(table);
    if h.is_changing() {
        return Err(Refusal::Changing);
    }
    let rows = Rows {
        image: table,
        begin: header::LENGTH,
        count: h.rows as usize,
    };
    let found = checks::newest::newest(rows, stamp, register).unwrap_or(Written {
        version: 0,
        value: 0,
    });
    Ok(Reply::taken(h, 7, 0, found.version, found.value))
}
