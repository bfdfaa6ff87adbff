// Where a stamp stands among the rows of an image, and the body that it is held with.
ghost use Rattle.std.specs.Prelude.{◌≡◌, true, ◌+◌, ◌*◌, ◌≤◌, length};
ghost use Rattle.rules.specs.Tables.{rising};
ghost use Rattle.rows.specs.Fields.{row_length};
ghost use Rattle.rows.specs.Read.{rows_at};
ghost use Rattle.rows.specs.Halving.{steps};
ghost use Rattle.rows.specs.Inner.Places.{place_of, FoundInside, body_found};

use crate::row;

// The index of the stamp's row, or the one that its row would have. It has the shape of a Result, but neither of the two is an error: a row is added at the one and changed at the other.
#[derive(Clone, Copy)]
pub enum Place {
    Held { row: usize },
    Absent { row: usize },
}

// What was found, and how many rows were compared to find it.
#[derive(Clone, Copy, Debug, PartialEq, Eq)]
pub struct Compared<T> {
    pub found: T,
    pub compared: usize,
}

impl<T> Compared<T> {
    // What is said without a search: no row was compared.
    pub fn without_search(found: T) -> Compared<T>
        ensures { (result.found ≡ found) × (result.compared ≡ 0) }
    {
        Compared { found, compared: 0 }
    }
}

impl<T: Copy> Compared<T> {
    // What is told by the same search in place of what it found.
    pub fn with<U>(self, found: U) -> Compared<U>
        ensures { (result.found ≡ found) × (result.compared ≡ self.compared) }
    {
        Compared {
            found,
            compared: self.compared,
        }
    }
}

// Rows stand in the order of their stamps, so of those that are left the one in the middle has the stamp, or tells on which side of it the search goes on. It stays a loop by hand: the rows compared are those of the written definition of halving (`steps`), and a library's search promises no count.
#[tactic(auto, using(crate::proofs::Sought::place_sought, crate::proofs::Halving::turn_none, crate::proofs::Halving::few_steps))]
pub fn find(image: &[u8], begin: usize, rows: usize, stamp: u64) -> Compared<Place>
    requires { (begin + row_length * rows ≤ length image.now) × (rising 0 (rows_at image.now begin rows) ≡ true) }
    ensures { (result.found ≡ place_of (rows_at image.now begin rows) stamp) × (result.compared ≡ steps (rows_at image.now begin rows) stamp) }
{
    let mut low: usize = 0;
    let mut high = rows;
    let mut compared: usize = 0;
    while low < high {
        let middle = low + (high - low) / 2;
        let here = row::row_at(image, begin, middle).stamp;
        compared += 1;
        if here == stamp {
            return Compared {
                found: Place::Held { row: middle },
                compared,
            };
        }
        if here < stamp {
            low = middle + 1;
        } else {
            high = middle;
        }
    }
    Compared {
        found: Place::Absent { row: low },
        compared,
    }
}

// The body of the row that was found, as the part of the lent image where it lies; an empty part if no row was.
pub fn held_body(image: &[u8], begin: usize, place: Place) -> &[u8]
    requires { FoundInside image.now begin place }
    ensures { result.now ≡ body_found image.now begin place }
{
    let Place::Held { row: index } = place else {
        return &image[0..0];
    };
    row::body_at(image, begin, index)
}
