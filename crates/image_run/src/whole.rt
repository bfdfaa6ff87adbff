// Whether a run is one or more whole images.
ghost use Rattle.std.specs.Prelude.{◌≡◌};
ghost use Rattle.rules.specs.Tests.{is_some};
ghost use Rattle.table.specs.Inner.Models.{model_of};
ghost use Rattle.image_run.specs.Runs.{run_tables};

use table::image;
use table::model::Model;

// Each image is looked for where the one before ended, and the last ends the run. The walk over whole images (`walk`) cannot be taken before that.
pub fn is_whole(run: &[u8], model: Model) -> bool
    ensures { result ≡ is_some (run_tables (model_of model) run.now) }
{
    let mut rest = run;
    while !rest.is_empty() {
        let Some(length) = image::find(rest, model) else {
            return false;
        };
        rest = &rest[length..];
    }
    0 < run.len()
}
