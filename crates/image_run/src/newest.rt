// Only tables of the greatest last normal view are used.
ghost use Rattle.std.specs.Prelude.{◌≡◌};
ghost use Rattle.rules.specs.Tests.{greatest};
ghost use Rattle.rules.specs.Tables.{valley};
ghost use Rattle.image_run.specs.Inner.WholeRuns.{tables_of, Images};

use crate::walk::ImagesOf;
use table::header;

// The greatest last normal view of the tables of a run.
pub fn newest_view(run: &[u8]) -> u32
    requires { Images valley run.now }
    ensures { result ≡ greatest (λ T. T.view) (tables_of valley run.now) }
{
    ImagesOf::run(run).fold(0, |newest: u32, image| newest.max(header::read(image).view))
}
