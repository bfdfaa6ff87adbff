// A walk over a run, image after image.
ghost use Rattle.std.specs.Prelude.{◌≡◌, true};
ghost use Rattle.rules.specs.Tests.{is_some};
ghost use Rattle.rules.specs.Tables.{valley};
ghost use Rattle.image_run.specs.Runs.{images};
ghost use Rattle.image_run.specs.Inner.WholeRuns.{tables_of, Images};

use table::header;

// The images of a run that was found whole, one after the other. Each is handed on as the part of the run that begins with it.
#[derive(Drop)]
pub struct ImagesOf<'a> {
    pub(crate) rest: &'a [u8],
    pub ghost whole: { is_some (images valley rest.now) ≡ true },
}

impl<'a> ImagesOf<'a> {
    // All of them, from the first on.
    pub fn run(run: &'a [u8]) -> ImagesOf<'a>
        requires { Images valley run.now }
        ensures { result.rest.now ≡ run.now }
    {
        ImagesOf { rest: run }
    }
}

impl<'a> Iterator for ImagesOf<'a> {
    ghost use Rattle.std.specs.Iterator.{item_count};
    ghost use Rattle.image_run.specs.Inner.Walk.{GivesImage};

    type Item = &'a [u8];

    ghost next_gives = { λ s r t. GivesImage s.rest.now r t.rest.now };

    ghost remaining = { item_count (λ s. tables_of valley s.rest.now) };

    // Each image is looked for where the one before it ended.
    fn next(&mut self) -> Option<&'a [u8]> {
        if self.rest.is_empty() {
            return None;
        }
        let image = self.rest;
        self.rest = &image[header::read(image).length as usize..];
        Some(image)
    }
}
