// What is lent to a check: accesses that stand one behind the other, a body with its counts, and the rows of an image.
ghost use Rattle.std.specs.Prelude.{◌≡◌, Bool, ◌+◌, ◌*◌, ◌<◌, ◌≤◌, ◌++◌, length};
ghost use Rattle.rules.specs.Tests.{any};
ghost use Rattle.rules.specs.Stamps as rules;
ghost use Rattle.rows.specs.Fields.{row_length, fields_at};
ghost use Rattle.rows.specs.Read.{access_at, access_of, body_at, row_of};
ghost use Rattle.rows.specs.Inner.Rows.{BodyInside};

use rows::body::Access;
use rows::row;
use rows::row::RowFields;

// So many accesses of a body, from an index on.
#[derive(Clone, Copy)]
pub struct Accesses<'a> {
    pub bytes: &'a [u8],
    pub from: usize,
    pub count: usize,
    pub ghost inside: { 9 * (from + count) ≤ length bytes.now },
}

impl<'a> Accesses<'a> {
    ghost use Rattle.checks.specs.Inner.Lent.{listed};

    // The access at an index among them.
    pub fn at(self, index: usize) -> Access
        requires { index < self.count }
        ensures { result ≡ access_at self.entry.bytes.now (9 * (self.entry.from + index)) }
    {
        rows::body::access_at(self.bytes, self.from + index)
    }

    // Whether one of them passes a test.
    pub fn any<F: Fn(Access) -> bool>(self, passes: F) -> bool
        requires { F.IsAlwaysCallable passes }
        ensures { (test : rules.Access → Bool) → ((a : Access) (b : Bool) → F.post passes a b → b ≡ test (access_of a)) → result ≡ any test (listed self.entry) }
    {
        for i in 0..self.count {
            if passes(self.at(i)) {
                return true;
            }
        }
        false
    }
}

// A body where it lies, in the table or in a message: its reads stand first, then its writes.
#[derive(Clone, Copy)]
pub struct Body<'a> {
    pub bytes: &'a [u8],
    pub reads: usize,
    pub writes: usize,
    pub ghost inside: { 9 * (reads + writes) ≤ length bytes.now },
}

impl<'a> Body<'a> {
    ghost use Rattle.checks.specs.Inner.Lent.{listed, lent_body};

    // The body of a row, where it lies.
    #[tactic(auto, using(crate::proofs::LentParts::body_parts))]
    pub fn of(bytes: &'a [u8], row: RowFields) -> Body<'a>
        requires { BodyInside bytes.now row }
        ensures { lent_body result ≡ body_at bytes.now row.offset row.reads row.writes }
    {
        Body {
            bytes: row::body_of(bytes, row),
            reads: usize::from(row.reads),
            writes: usize::from(row.writes),
        }
    }

    // What it reads.
    #[tactic(auto, unfolding(rows::specs::Read::body_at))]
    pub fn read(self) -> Accesses<'a>
        ensures { listed result ≡ (lent_body self.entry).reads }
    {
        Accesses {
            bytes: self.bytes,
            from: 0,
            count: self.reads,
        }
    }

    // What it writes.
    #[tactic(auto, unfolding(rows::specs::Read::body_at))]
    pub fn written(self) -> Accesses<'a>
        ensures { listed result ≡ (lent_body self.entry).writes }
    {
        Accesses {
            bytes: self.bytes,
            from: self.reads,
            count: self.writes,
        }
    }

    // What it reads and what it writes.
    #[tactic(auto, using(crate::proofs::LentParts::accesses_joined), unfolding(rows::specs::Read::body_at))]
    pub fn accessed(self) -> Accesses<'a>
        ensures { listed result ≡ (lent_body self.entry).reads ++ (lent_body self.entry).writes }
    {
        Accesses {
            bytes: self.bytes,
            from: 0,
            count: self.reads + self.writes,
        }
    }
}

// The rows of an image, from where they begin.
#[derive(Clone, Copy)]
pub struct Rows<'a> {
    pub image: &'a [u8],
    pub begin: usize,
    pub count: usize,
    pub ghost inside: { begin + row_length * count ≤ length image.now },
}

impl<'a> Rows<'a> {
    ghost use Rattle.checks.specs.Inner.Lent.{lent_body, lent_fields};

    // The row at an index.
    pub fn row(self, index: usize) -> RowFields
        requires { index < self.count }
        ensures { result ≡ lent_fields self.entry index }
    {
        row::row_at(self.image, self.begin, index)
    }

    // The body of a row, where it lies.
    #[tactic(auto, unfolding(rows::specs::Read::row_of))]
    pub fn body(self, row: RowFields) -> Body<'a>
        requires { BodyInside self.image.now row }
        ensures { lent_body result ≡ (row_of self.entry.image.now row).body }
    {
        Body::of(self.image, row)
    }
}
