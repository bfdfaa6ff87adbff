// The kinds of box.
ghost use Rattle.std.specs.Prelude.{◌≡◌};
ghost use Rattle.rules.specs.Tables.{valley};
ghost use Rattle.table.specs.Inner.Models.{model_of};

// How many bytes the table or output buffer of a valley box has at least.
pub const VALLEY_BUFFER: usize = 49176;

// How many rows a kind of box holds at most, and how many bytes its table or output buffer has at least.
#[derive(Clone, Copy)]
pub struct Model {
    pub limit: u16,
    pub least: usize,
}

impl Model {
    // The valley box: 512 rows, 49,176 bytes.
    pub fn valley() -> Model
        ensures { model_of result ≡ valley }
    {
        Model {
            limit: 512,
            least: VALLEY_BUFFER,
        }
    }
}
