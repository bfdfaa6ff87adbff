// The walk over the stamps of the used tables of a run, each with its rows.
ghost use Rattle.std.specs.Prelude.{◌≡◌, ◌^◌, ◌≤◌, ◌<◌, length, replicate};
ghost use Rattle.rules.specs.Tables.{valley};
ghost use Rattle.image_run.specs.Inner.WholeRuns.{tables_of, Images};
ghost use Rattle.gather.specs.Inner.Cursors.{StandIn};

use crate::held::Gathered;
use crate::stamps::Cursors;
use crate::{held, stamps};

// The stamps that are left of a walk, by the cursors in the tables of the run.
#[derive(Drop)]
pub struct StampsOf<'a> {
    pub run: &'a [u8],
    pub cursors: Cursors,
    pub ghost whole: { Images valley run.now × (length (tables_of valley run.now) ≤ 4) },
    pub ghost stand: { StandIn run.now cursors × (cursors.last < 2 ^ 48) },
}

impl<'a> StampsOf<'a> {
    // All stamps of the tables of the view `newest`.
    pub fn used(run: &'a [u8], newest: u32) -> StampsOf<'a>
        requires { Images valley run.now × (length (tables_of valley run.now) ≤ 4) }
        ensures { (result.run.now ≡ run.now) × (result.cursors ≡ record { newest = newest; last = 0; places = replicate 4 0 }) }
    {
        StampsOf {
            run,
            cursors: Cursors::start(newest),
        }
    }
}

impl<'a> Iterator for StampsOf<'a> {
    ghost use Rattle.std.specs.Prelude.{◌≡◌, ◌-◌, ◌^◌};
    ghost use Rattle.std.specs.Iterator.{at_most};
    ghost use Rattle.gather.specs.Inner.Walk.{GivesStamp};

    type Item = Gathered;

    ghost next_gives = { λ s r t. (t.run.now ≡ s.run.now) × GivesStamp s.run.now s.cursors r t.cursors };

    ghost remaining = { λ s. at_most (2 ^ 48 - s.cursors.last) };

    fn next(&mut self) -> Option<Gathered> {
        let stamp = stamps::next_stamp(self.run, self.cursors)?;
        let gathered = held::gather(self.run, self.cursors, stamp);
        self.cursors = gathered.cursors;
        Some(gathered)
    }
}
