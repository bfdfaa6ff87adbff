// The header of an image: read from its 24 bytes, changed by value, written, and held against the rules.
ghost use Rattle.std.specs.Prelude.{◌≡◌, ◌≤◌, eqb, leb, ltb, length};
ghost use Rattle.wire.specs.Parts.{replaced};
ghost use Rattle.rules.specs.Tests.{both};
ghost use Rattle.rules.specs.Groups.{is_group};
ghost use Rattle.rules.specs.Tables.{changing_mode, mode_by_rule, fresh_table};
ghost use Rattle.table.specs.Headers.{header_length, four_byte_fields, header_bytes, header_at};
ghost use Rattle.table.specs.Inner.ChangedHeaders.{with_view, with_promised, with_mode, with_rows, with_box};
ghost use Rattle.table.specs.Inner.HeaderTests.{sizes_by_rule, header_by_rule_at};
ghost use Rattle.table.specs.Images.{header_of, format_one};

use rows::row;

// How many bytes a header has.
pub const LENGTH: usize = 24;

pub const FORMAT_ONE: u8 = 1;

// The fields of a header, in the order in which they stand. The mode stays a byte, since a header is read from any bytes.
#[derive(Clone, Copy)]
pub struct Header {
    pub format: u8,
    pub boxnumber: u8,
    pub n: u8,
    pub mode: u8,
    pub rows: u32,
    pub view: u32,
    pub promised: u32,
    pub start: u32,
    pub length: u32,
}

// The mode of a box that has promised a view and not started it; 0 is the mode of one that has.
pub const CHANGING: u8 = 1;

impl Header {
    // A fresh box's header: normal, no rows, no view begun.
    pub fn fresh(n: u8, boxnumber: u8) -> Header
        ensures { result ≡ header_of format_one (fresh_table n boxnumber) }
    {
        Header {
            format: FORMAT_ONE,
            boxnumber,
            n,
            mode: 0,
            rows: 0,
            view: 0,
            promised: 0,
            start: 0,
            length: LENGTH as u32,
        }
    }

    // Whether the box is changing.
    pub fn is_changing(self) -> bool
        ensures { result ≡ eqb self.mode changing_mode }
    {
        self.mode == CHANGING
    }

    // The methods below give the header with its view, promise, mode or rows changed; that promised and view fit the mode is for whoever changes them.
    pub fn with_view(mut self, view: u32) -> Header
        ensures { result ≡ with_view self view }
    {
        self.view = view;
        self
    }

    pub fn with_promised(mut self, promised: u32) -> Header
        ensures { result ≡ with_promised self promised }
    {
        self.promised = promised;
        self
    }

    pub fn with_mode(mut self, mode: u8) -> Header
        ensures { result ≡ with_mode self mode }
    {
        self.mode = mode;
        self
    }

    // The total length goes with the rows.
    pub fn with_rows(mut self, rows: u32, length: u32) -> Header
        ensures { result ≡ with_rows self rows length }
    {
        self.rows = rows;
        self.length = length;
        self
    }

    // Another box's header as this box's.
    pub fn with_box(mut self, boxnumber: u8) -> Header
        ensures { result ≡ with_box self boxnumber }
    {
        self.boxnumber = boxnumber;
        self
    }
}

// The header at the start of lent bytes, whatever they are.
#[tactic(auto, unfolding(crate::specs::Headers::header_at))]
pub fn read(s: &[u8]) -> Header
    requires { header_length ≤ length s.now }
    ensures { result ≡ header_at s.now }
{
    Header {
        format: wire::u8_at(s, 0),
        boxnumber: wire::u8_at(s, 1),
        n: wire::u8_at(s, 2),
        mode: wire::u8_at(s, 3),
        rows: wire::u32_at(s, 4),
        view: wire::u32_at(s, 8),
        promised: wire::u32_at(s, 12),
        start: wire::u32_at(s, 16),
        length: wire::u32_at(s, 20),
    }
}

// The last five fields have four bytes each.
#[tactic(auto, using(crate::proofs::Headers::four_byte_steps))]
fn write_four_byte_fields(s: &mut [u8], h: Header)
    requires { header_length ≤ length s.old }
    ensures { s.new ≡ replaced s.old 4 (four_byte_fields h) }
{
    wire::put_u32(s, 4, h.rows);
    wire::put_u32(s, 8, h.view);
    wire::put_u32(s, 12, h.promised);
    wire::put_u32(s, 16, h.start);
    wire::put_u32(s, 20, h.length);
}

// Writes a header at the start of a lent buffer.
#[tactic(auto, using(crate::proofs::Headers::header_steps))]
pub fn write(s: &mut [u8], h: Header)
    requires { header_length ≤ length s.old }
    ensures { s.new ≡ replaced s.old 0 (header_bytes h) }
{
    wire::put_four_u8(s, 0, h.format, h.boxnumber, h.n, h.mode);
    write_four_byte_fields(s, h);
}

// 3, 5 or 7 boxes.
#[tactic(auto, using(rules::proofs::Chains::tests), unfolding(rules::specs::Groups::is_group, rules::specs::Tests::either))]
pub fn group_valid(n: u8) -> bool
    ensures { result ≡ is_group n }
{
    matches!(n, 3 | 5 | 7)
}

// A group, and one of its boxes.
#[tactic(auto, using(rules::proofs::Chains::chain), unfolding(rules::specs::Tests::both))]
pub fn box_valid(n: u8, boxnumber: u8) -> bool
    ensures { result ≡ both (is_group n) (ltb boxnumber n) }
{
    group_valid(n) && boxnumber < n
}

// Normal: the promised view is the view. Changing: it is above.
#[tactic(auto, using(rules::proofs::Chains::tests, rules::proofs::Tables::normal_views), unfolding(rules::specs::Tables::mode_by_rule, rules::specs::Tests::both, rules::specs::Tests::either))]
fn mode_valid(mode: u8, view: u32, promised: u32) -> bool
    ensures { result ≡ mode_by_rule mode view promised }
{
    match mode {
        0 => promised == view,
        CHANGING => view < promised,
        _ => false,
    }
}

// The rows are not too many, start rows do not exceed them, and they lie inside the image, which lies inside the lent bytes.
#[tactic(auto, using(rules::proofs::Chains::tests), unfolding(crate::specs::Inner::HeaderTests::sizes_by_rule, rules::specs::Tests::both))]
fn sizes_valid(h: Header, begin: usize, limit: u16, lent: usize) -> bool
    requires { begin ≤ 65536 }
    ensures { result ≡ sizes_by_rule h begin limit lent }
{
    h.start <= h.rows
        && h.rows <= u32::from(limit)
        && h.length as usize <= lent
        && begin + row::LENGTH * h.rows as usize <= h.length as usize
}

// The format, the group and the box.
#[tactic(auto, using(rules::proofs::Chains::chain), unfolding(rules::specs::Tests::both))]
fn format_valid(h: Header, format: u8) -> bool
    ensures { result ≡ both (eqb h.format format) (both (is_group h.n) (ltb h.boxnumber h.n)) }
{
    h.format == format && box_valid(h.n, h.boxnumber)
}

// The mode with its views, and the sizes.
#[tactic(auto, using(rules::proofs::Chains::chain))]
fn state_valid(h: Header, begin: usize, limit: u16, lent: usize) -> bool
    requires { begin ≤ 65536 }
    ensures { result ≡ both (mode_by_rule h.mode h.view h.promised) (sizes_by_rule h begin limit lent) }
{
    mode_valid(h.mode, h.view, h.promised) && sizes_valid(h, begin, limit, lent)
}

// Whether a header keeps all rules that can be told without a row: of an image of this format whose rows begin there.
#[tactic(auto, using(rules::proofs::Chains::chain), unfolding(crate::specs::Inner::HeaderTests::header_by_rule_at))]
pub fn valid(h: Header, format: u8, begin: usize, limit: u16, lent: usize) -> bool
    requires { begin ≤ 65536 }
    ensures { result ≡ header_by_rule_at h format begin limit lent }
{
    format_valid(h, format) && state_valid(h, begin, limit, lent)
}
