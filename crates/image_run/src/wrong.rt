// Whether the tables of a run are wrong for a merge: not f+1 of one group, a box twice, one that isn't changing, or one that promised another view.
ghost use Rattle.std.specs.Prelude.{◌≡◌, ◌<◌, eqb, length};
ghost use Rattle.rules.specs.Tests.{any, twice};
ghost use Rattle.rules.specs.Tables.{valley};
ghost use Rattle.rules.specs.Merge.{are_wrong};
ghost use Rattle.image_run.specs.Inner.WholeRuns.{tables_of, Images, unfit_as, unfit};

use crate::walk::ImagesOf;
use table::header;
use table::header::Header;

// How many images a run has.
fn image_count(run: &[u8]) -> usize
    requires { Images valley run.now }
    ensures { result ≡ length (tables_of valley run.now) }
{
    ImagesOf::run(run).count()
}

// Whether a table is of another group than one of n, isn't changing, or promised another view.
#[tactic(auto, unfolding(rules::specs::Tests::either))]
fn is_unfit(h: Header, n: u8, view: u32) -> bool
    ensures { result ≡ unfit_as n view h.n h.mode h.promised }
{
    h.n != n || h.mode == 0 || h.promised != view
}

// Whether one of them is.
fn some_unfit(run: &[u8], n: u8, view: u32) -> bool
    requires { Images valley run.now }
    ensures { result ≡ any (unfit n view) (tables_of valley run.now) }
{
    ImagesOf::run(run).any(|image| is_unfit(header::read(image), n, view))
}

// Whether a box is among them.
fn has_box(run: &[u8], boxnumber: u8) -> bool
    requires { Images valley run.now }
    ensures { result ≡ any (λ T. eqb T.box boxnumber) (tables_of valley run.now) }
{
    ImagesOf::run(run).any(|image| header::read(image).boxnumber == boxnumber)
}

// Whether a box is among them twice: among those behind one of its own. A `for` would not let what is left of the walk be asked.
#[tactic(auto, using(crate::proofs::NextImages::none_twice))]
fn box_twice(run: &[u8]) -> bool
    requires { Images valley run.now }
    ensures { result ≡ twice (λ T. T.box) (tables_of valley run.now) }
{
    let mut images = ImagesOf::run(run);
    while let Some(image) = images.next() {
        let h = header::read(image);
        if has_box(images.rest, h.boxnumber) {
            return true;
        }
    }
    false
}

// Whether the tables of a run are wrong for a merge for a view.
#[tactic(auto, using(crate::proofs::Wrongs::wrong_as, crate::proofs::Wrongs::first_room, crate::proofs::Wrongs::group_some), unfolding(rules::specs::Tests::either))]
pub fn are_wrong(run: &[u8], view: u32) -> bool
    requires { Images valley run.now × (0 < length run.now) }
    ensures { result ≡ are_wrong view (tables_of valley run.now) }
{
    let n = header::read(run).n;
    image_count(run) != quorums::quorum(n) || some_unfit(run, n, view) || box_twice(run)
}
