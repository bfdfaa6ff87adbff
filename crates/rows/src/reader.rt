// One small reader over a lent image: it stands at a row. Whatever goes over rows takes them through it, by `row::row_at` and `row::body_at`.
//
// There is little of it: each function takes the reader apart and calls one over a plain slice.
ghost use Rattle.std.specs.Prelude.{◌≡◌, ◌+◌, ◌*◌, ◌≤◌, length};
ghost use Rattle.rows.specs.Fields.{row_length, fields_at};
ghost use Rattle.rows.specs.Inner.Rows.{BodyInside, body_part};

use crate::row;
use crate::row::RowFields;

// An image, where its rows begin, and the index of a row.
#[derive(Clone, Copy)]
pub struct Reader<'a> {
    pub image: &'a [u8],
    pub begin: usize,
    pub index: usize,
}

// A reader at a row of an image.
pub fn at<'a>(image: &'a [u8], begin: usize, index: usize) -> Reader<'a>
    ensures { (result.image ≡ image.entry) × (result.begin ≡ begin) × (result.index ≡ index) }
{
    Reader {
        image,
        begin,
        index,
    }
}

impl<'a> Reader<'a> {
    // The row at which it stands.
    pub fn row(self) -> RowFields
        requires { self.begin + row_length * self.index + row_length ≤ length self.image.now }
        ensures { result ≡ fields_at self.entry.image.now (self.entry.begin + row_length * self.entry.index) }
    {
        row::fields_at(self.image, self.begin, self.index)
    }

    // The body of that row, as the part of the image where it lies.
    pub fn body(self) -> &'a [u8]
        requires { (self.begin + row_length * self.index + row_length ≤ length self.image.now) × BodyInside self.image.now (fields_at self.image.now (self.begin + row_length * self.index)) }
        ensures { result.now ≡ body_part self.entry.image.now (fields_at self.entry.image.now (self.entry.begin + row_length * self.entry.index)) }
    {
        row::body_in(self.image, self.begin, self.index)
    }
}
