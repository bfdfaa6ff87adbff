// A mark for each row of a merge, eight in a byte: whether the result of its stamp is agreed.
// They stay bits, since an array of 512 bools would take the stack of a merge over 1 KiB (D216 of docs/DECISIONS.md).
ghost use Rattle.std.specs.Prelude.{◌≡◌, false, ◌+◌, ◌/◌, ◌%◌, ◌^◌, ◌<◌, eqb};
ghost use Rattle.settle.specs.Inner.Marks.{is_marked, marked};

// Whether the row at an index is marked.
#[tactic(auto, unfolding(crate::specs::Inner::Marks::is_marked))]
pub fn is_marked(marks: &[u8; 64], index: usize) -> bool
    requires { index < 512 }
    ensures { result ≡ is_marked marks.now index }
{
    (marks[index / 8] >> (index % 8)) % 2 == 1
}

// A byte with the mark at a place of it, which it does not have yet: so nothing is carried into the next place.
#[tactic(auto, using(crate::proofs::MarkedRows::byte_fits))]
fn with_mark(byte: u8, place: usize) -> u8
    requires { (place < 8) × (eqb (byte / 2 ^ place % 2) 1 ≡ false) }
    ensures { result ≡ byte + 2 ^ place }
{
    byte + (1 << place)
}

// Marks the row at an index, which is not marked yet.
#[tactic(auto, unfolding(crate::specs::Inner::Marks::is_marked, crate::specs::Inner::Marks::marked))]
pub fn mark(marks: &mut [u8; 64], index: usize)
    requires { (index < 512) × (is_marked marks.old index ≡ false) }
    ensures { marks.new ≡ marked marks.old index }
{
    marks[index / 8] = with_mark(marks[index / 8], index % 8);
}
