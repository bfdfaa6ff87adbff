// Whether a read is stale, and whether two transactions clash: one read a register at a version, and the other writes it between that version and the reader's stamp.
ghost use Rattle.std.specs.Prelude.{◌≡◌};
ghost use Rattle.rules.specs.DayOrder.{stale};
ghost use Rattle.rules.specs.Inner.Clashes.{clash};
ghost use Rattle.rows.specs.Read.{access_of};
ghost use Rattle.checks.specs.Inner.Lent.{listed, lent_body};
ghost use Rattle.checks.specs.Inner.RegisterWrites.{Marked, early};

use crate::accesses;
use crate::lent::{Accesses, Body};
use rows::body::Access;

// Whether a read is of a version below `w` and of a register that a transaction at `w` writes.
#[tactic(auto, using(crate::proofs::Registers::early_sides))]
fn early(w: u64, written: Accesses, read: Access) -> bool
    ensures { result ≡ early w (listed written.entry) (access_of read) }
{
    read.number < w && accesses::write_to(written, read.register).is_some()
}

// Whether one of some reads is too early for a transaction at `w`. Nothing is asked of the reader's own stamp.
#[tactic(auto, unfolding(rules::specs::DayOrder::stale))]
pub fn stale(w: u64, written: Accesses, reads: Accesses) -> bool
    ensures { result ≡ stale w (listed written.entry) (listed reads.entry) }
{
    reads.any(|read| early(w, written, read))
}

// Whether a read is stale by the writes of a row. They are looked up among the marks of what is read, and compared only where one is marked.
#[tactic(auto, using(crate::proofs::Marks::unmarked_stale))]
pub fn stale_marked(w: u64, written: Accesses, reads: Accesses, marks: &[bool; 64]) -> bool
    ensures { Marked marks.now (listed reads.entry) → result ≡ stale w (listed written.entry) (listed reads.entry) }
{
    accesses::any_marked(written, marks) && stale(w, written, reads)
}

// Whether a transaction clashes with another one. Only the one with the greater stamp can have read too early, so one side is looked at: its reads are marked if it is the first.
#[tactic(auto, using(crate::proofs::Registers::clash_sides))]
pub fn clashes(stamp: u64, body: Body, other: u64, held: Body, marks: &[bool; 64]) -> bool
    ensures { Marked marks.now (lent_body body.entry).reads → result ≡ clash stamp (lent_body body.entry) other (lent_body held.entry) }
{
    if other < stamp {
        stale_marked(other, held.written(), body.read(), marks)
    } else {
        stamp < other && stale(stamp, body.written(), held.read())
    }
}
