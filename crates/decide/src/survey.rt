// What all stamps of the used tables say together, before anything is written: other body, contradiction and full.
ghost use Rattle.std.specs.Prelude.{◌≡◌, ◌^◌, ◌<◌, ◌≤◌, length};
ghost use Rattle.rules.specs.Tables.{valley};
ghost use Rattle.rules.specs.Merge.{stamps};
ghost use Rattle.image_run.specs.Inner.WholeRuns.{tables_of, Images};
ghost use Rattle.gather.specs.Inner.UsedTables.{used_of};
ghost use Rattle.gather.specs.Inner.Gathered.{GatheredFrom, rows_in};
ghost use Rattle.numbers.specs.Inner.Ended.{ended_with};
ghost use Rattle.decide.specs.Inner.Surveyed.{surveyed, with_stamp, survey_number};

use gather::held::Gathered;
use gather::walk::StampsOf;
use gather::{bodies, state};
use numbers::Refusal;

// Whether a stamp has two bodies, whether one is held with a contradiction, and how many stamps there are.
#[derive(Clone, Copy)]
pub struct Survey {
    pub bodies: bool,
    pub contradiction: bool,
    pub stamps: usize,
}

// One more stamp, with its rows.
fn with_stamp(survey: Survey, run: &[u8], gathered: &Gathered) -> Survey
    requires images { Images valley run.now × (length (tables_of valley run.now) ≤ 4) × GatheredFrom run.now gathered.now × (0 < length (rows_in run.now gathered.now)) }
    requires stamps_lt_last { (survey.stamps < gathered.now.cursors.last) × (gathered.now.cursors.last < 2 ^ 48) }
    ensures { result ≡ with_stamp (rows_in run.now gathered.now) survey }
{
    Survey {
        bodies: survey.bodies || bodies::two_bodies(run, gathered),
        contradiction: survey.contradiction || state::state_of(gathered).contradicts(),
        stamps: survey.stamps + 1,
    }
}

// All stamps of the used tables of a run. It stays a call, so that what it keeps of a stamp is off the stack before rows are written and checked.
#[inline(never)]
pub fn survey_stamps(run: &[u8], newest: u32) -> Survey
    requires { Images valley run.now × (length (tables_of valley run.now) ≤ 4) }
    ensures { result ≡ surveyed (used_of newest (tables_of valley run.now)) (stamps (used_of newest (tables_of valley run.now))) }
{
    let mut seen = Survey {
        bodies: false,
        contradiction: false,
        stamps: 0,
    };
    for gathered in StampsOf::used(run, newest) {
        seen = with_stamp(seen, run, &gathered);
    }
    seen
}

impl Survey {
    // Whether the stamps allow a merge, or what they refuse it for.
    pub fn allows_merge(self, limit: u16) -> Result<(), Refusal>
        ensures { ended_with result ≡ survey_number limit self }
    {
        if self.bodies {
            return Err(Refusal::OtherBody);
        }
        if self.contradiction {
            return Err(Refusal::Contradiction);
        }
        if usize::from(limit) < self.stamps {
            return Err(Refusal::Full);
        }
        Ok(())
    }
}
