// The counts of a group of n boxes.
#![tactic(auto)]

ghost use Rattle.std.specs.Prelude.{◌≡◌, ◌<◌};
ghost use Rattle.rules.specs.Groups as groups;

// How many boxes may be away: of no boxes at all none.
fn f_of(n: u8) -> usize
    ensures { (result ≡ groups.f_of n) × (result < 128) }
{
    usize::from(n.saturating_sub(1)) / 2
}

pub fn quorum(n: u8) -> usize
    ensures { result ≡ groups.quorum (groups.f_of n) }
{
    f_of(n) + 1
}

// Three f halves, rounded up, plus one.
pub fn fast(n: u8) -> usize
    ensures { result ≡ groups.fast_count (groups.f_of n) }
{
    (3 * f_of(n) + 1) / 2 + 1
}

// f half, rounded up, plus one.
pub fn agreement(n: u8) -> usize
    ensures { result ≡ groups.agreement_count (groups.f_of n) }
{
    (f_of(n) + 1) / 2 + 1
}
