// Message 7: the greatest done-commit write of a register, by one pass over the rows from the last on.
ghost use Rattle.std.specs.Prelude.{◌≡◌, true, IfSome};
ghost use Rattle.rules.specs.Tables.{rising};
ghost use Rattle.rules.specs.Messages.{found, write_of};
ghost use Rattle.rows.specs.Read.{row_of};
ghost use Rattle.rows.specs.Inner.Rows.{BodyInside, RowsInside};
ghost use Rattle.checks.specs.Inner.Given.{found_meant};
ghost use Rattle.checks.specs.Inner.Lent.{lent_rows};
ghost use Rattle.checks.specs.Inner.Passed.{found_in};

use crate::accesses;
use crate::lent::Rows;
use rows::row::RowFields;

// The write that was found: its transaction's stamp, and the value.
#[derive(Clone, Copy)]
pub struct Written {
    pub version: u64,
    pub value: u64,
}

// The write of a register in a row, whatever became of its transaction.
#[tactic(auto, using(crate::proofs::Registers::written_as))]
fn write_in(rows: Rows, row: RowFields, register: u8) -> Option<Written>
    requires { BodyInside rows.image.now row }
    ensures meant { found_meant result ≡ write_of row.stamp (row_of rows.entry.image.now row).body.writes register }
    ensures version { IfSome result (λ written. written.version ≡ row.stamp) }
{
    let value = accesses::write_to(rows.body(row).written(), register)?;
    Some(Written {
        version: row.stamp,
        value,
    })
}

// The write of a register in a row, if it is committed at or below the stamp.
#[tactic(auto, using(crate::proofs::Rounds::found_byte, rules::proofs::Chains::tests), unfolding(rules::specs::Tests::both))]
fn found_in(rows: Rows, row: RowFields, stamp: u64, register: u8) -> Option<Written>
    requires { BodyInside rows.image.now row }
    ensures meant { found_meant result ≡ found_in (row_of rows.entry.image.now row) stamp register }
    ensures version { IfSome result (λ written. written.version ≡ row.stamp) }
{
    if row.outcome == 3 && row.stamp <= stamp {
        write_in(rows, row, register)
    } else {
        None
    }
}

// The greatest committed write of a register at or below a stamp. Rows rise, so it is the first that is met from the last row on.
pub fn newest(rows: Rows, stamp: u64, register: u8) -> Option<Written>
    requires { RowsInside rows.image.now rows.begin rows.count × (rising 0 (lent_rows rows) ≡ true) }
    ensures { found_meant result ≡ found (lent_rows rows.entry) stamp register }
{
    for i in (0..rows.count).rev() {
        let found = found_in(rows, rows.row(i), stamp, register);
        if found.is_some() {
            return found;
        }
    }
    None
}
