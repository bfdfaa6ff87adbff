// A transaction that is checked, with the registers that it reads marked, so that most rows are passed without comparing their accesses with each of them.
ghost use Rattle.std.specs.Prelude.{◌≡◌};
ghost use Rattle.checks.specs.Inner.Lent.{lent_body};
ghost use Rattle.checks.specs.Inner.RegisterWrites.{Marked};

use crate::accesses;
use crate::lent::Body;

#[derive(Drop)]
pub struct Checked<'a> {
    pub stamp: u64,
    pub body: Body<'a>,
    pub marks: [bool; 64],
    pub ghost marked: { Marked marks (lent_body body).reads },
}

impl<'a> Checked<'a> {
    pub fn new(stamp: u64, body: Body<'a>) -> Checked<'a>
        ensures { (result.stamp ≡ stamp) × (lent_body result.body ≡ lent_body body.entry) }
    {
        Checked {
            stamp,
            body,
            marks: accesses::marks_of(body.read()),
        }
    }
}
