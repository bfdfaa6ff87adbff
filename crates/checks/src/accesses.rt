// A body's accesses, searched for a register, and marked by their registers.
ghost use Rattle.std.specs.Prelude.{◌≡◌};
ghost use Rattle.rules.specs.DayOrder.{common};
ghost use Rattle.rows.specs.Read.{access_of};
ghost use Rattle.checks.specs.Inner.Lent.{listed};
ghost use Rattle.checks.specs.Inner.RegisterWrites.{write_to, Marked, any_marked, rewritten};

use crate::lent::Accesses;
use rows::body::Access;

// The value of the write of a register.
#[tactic(auto, using(crate::proofs::Registers::write_turns))]
pub fn write_to(written: Accesses, register: u8) -> Option<u64>
    ensures { result ≡ write_to (listed written.entry) register }
{
    for i in 0..written.count {
        let write = written.at(i);
        if write.register == register {
            return Some(write.number);
        }
    }
    None
}

// Marks for the registers of accesses. There are 64 of them; a byte that is no register has the mark of one, so that what is not marked is not there, and what is marked has to be looked for. The register is cast: with `usize::from` the proof of the marks did not close.
pub fn marks_of(accesses: Accesses) -> [bool; 64]
    ensures { Marked result (listed accesses.entry) }
{
    let mut marks = [false; 64];
    for i in 0..accesses.count {
        marks[accesses.at(i).register as usize % 64] = true;
    }
    marks
}

// Whether one of some accesses has its register marked.
#[tactic(auto, unfolding(crate::specs::Inner::RegisterWrites::any_marked))]
pub fn any_marked(accesses: Accesses, marks: &[bool; 64]) -> bool
    ensures { result ≡ any_marked marks.now (listed accesses.entry) }
{
    accesses.any(|access| marks[access.register as usize % 64])
}

// Whether an access is of a register that a transaction writes. Only one that is marked is looked for among its writes.
fn rewritten(access: Access, written: Accesses, marks: &[bool; 64]) -> bool
    ensures { Marked marks.now (listed written.entry) → result ≡ rewritten (listed written.entry) (access_of access) }
{
    marks[access.register as usize % 64] && write_to(written, access.register).is_some()
}

// Whether one of some accesses is of a register that a transaction writes.
#[tactic(auto, unfolding(rules::specs::DayOrder::common))]
pub fn common(accesses: Accesses, written: Accesses, marks: &[bool; 64]) -> bool
    ensures { Marked marks.now (listed written.entry) → result ≡ common (listed accesses.entry) (listed written.entry) }
{
    accesses.any(|access| rewritten(access, written, marks))
}
