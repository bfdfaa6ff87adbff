// The forms of an image, as a box has them: what its header says as format, and where its rows begin.
ghost use Rattle.std.specs.Prelude.{◌≡◌};
ghost use Rattle.table.specs.Images.{format_one};
ghost use Rattle.table.specs.Inner.Forms.{form_of, Known};

use crate::header;

// The format in the header, and how many bytes stand before the rows: the header, and whatever this format stores behind it.
#[derive(Clone, Copy)]
pub struct Form {
    pub format: u8,
    pub begin: usize,
}

impl Form {
    // Format 1: nothing is stored, and rows begin right behind the header.
    pub fn one() -> Form
        ensures { (form_of result ≡ format_one) × Known result }
    {
        Form {
            format: header::FORMAT_ONE,
            begin: header::LENGTH,
        }
    }
}
