// The row that a message is about, or the reason for which it is refused before a row's state is looked at.
#![tactic(auto)]

ghost use Rattle.std.specs.Prelude.{◌≡◌, ◌≤◌, length};
ghost use Rattle.rules.specs.Groups.{f_of};
ghost use Rattle.rules.specs.Tables.{valley};
ghost use Rattle.rules.specs.Circumstances.{keeps_room, held_with_other_body};
ghost use Rattle.rows.specs.Halving.{steps};
ghost use Rattle.rows.specs.Inner.Places.{place_of};
ghost use Rattle.rows.specs.Read.{begins, body_at};
ghost use Rattle.rows.specs.Inner.Rows.{BodyInside};
ghost use Rattle.table.specs.Headers.{header_at};
ghost use Rattle.table.specs.Images.{format_one};
ghost use Rattle.table.specs.Parse.{table_at, BeginsWithImage};
ghost use Rattle.seek.specs.Inner.Limits.{limited};
ghost use Rattle.seek.specs.Inner.Findings.{RowInside, needed_body, NeededInside, other_counts, in_view, new_or_full, to_finalise, to_propose};
ghost use Rattle.seek.specs.Inner.Compared.{compared_to_finalise, compared_to_propose};

use numbers::Refusal;
use quorums;
use rows::lookup::{Compared, Place};
use rows::row::RowFields;
use rows::{lookup, row};
use table::header;
use table::header::Header;

// A row with the greatest body: its fields, and eight accesses of 9 bytes.
pub const GREATEST_ROW: usize = 96;

// Where the table that an image holds has a stamp. Whoever in the library seeks one does so here.
pub fn find(image: &[u8], h: Header, stamp: u64) -> Compared<Place>
    requires { BeginsWithImage valley image.now × (h ≡ header_at image.now) }
    ensures { (result.found ≡ place_of (table_at format_one image.now).rows stamp) × (result.compared ≡ steps (table_at format_one image.now).rows stamp) }
{
    lookup::find(image, header::LENGTH, h.rows as usize, stamp)
}

// Messages 2 and 4 are for a box that is in their view.
fn in_view(h: Header, view: u32) -> Result<(), Refusal>
    ensures { result ≡ in_view h view }
{
    if h.is_changing() {
        return Err(Refusal::Changing);
    }
    if view != h.view {
        return Err(Refusal::OtherView);
    }
    Ok(())
}

// Messages 2 and 4: the row of the stamp, in a box that is in that view. A refusal that comes before the search has compared nothing.
pub fn row_to_finalise(table: &[u8], stamp: u64, view: u32) -> Compared<Result<usize, Refusal>>
    requires { BeginsWithImage valley table.now }
    ensures { (result.found ≡ to_finalise (table_at format_one table.now) stamp view) × (result.compared ≡ compared_to_finalise (table_at format_one table.now) stamp view) }
{
    let h = header::read(table);
    if let Err(refusal) = in_view(h, view) {
        return Compared::without_search(Err(refusal));
    }
    let sought = find(table, h, stamp);
    let place = sought.found;
    let Place::Held { row: index } = place else {
        return sought.with(Err(Refusal::Unknown));
    };
    sought.with(Ok(index))
}

// A body that is needed for an answer: the table's if the stamp is known, else the message's.
fn needed_body<'a>(table: &'a [u8], message: &'a [u8], place: Place, given: RowFields) -> &'a [u8]
    requires { NeededInside table.now message.now given place }
    ensures { result.now ≡ needed_body table.now message.now given place }
{
    let Place::Held { row: _ } = place else {
        return row::body_of(message, given);
    };
    lookup::held_body(table, header::LENGTH, place)
}

// Whether two parts of the same length hold the same bytes. A merge asks it of the bodies of one stamp in two tables.
pub fn same_bytes(a: &[u8], b: &[u8]) -> bool
    requires { length a.now ≡ length b.now }
    ensures { result ≡ begins a.now b.now }
{
    a == b
}

// Whether the row of a stamp has other counts than a message. A body split otherwise into reads and writes is another.
fn other_counts(table: &[u8], place: Place, given: RowFields) -> bool
    requires { RowInside table.now place }
    ensures { result ≡ other_counts table.now given place }
{
    let Place::Held { row: index } = place else {
        return false;
    };
    let held = row::row_at(table, header::LENGTH, index);
    held.reads != given.reads || held.writes != given.writes
}

// Whether a stamp is held with another body than a message has: what is needed for the answer is then not what the message says.
pub fn other_body<'a>(table: &'a [u8], message: &'a [u8], place: Place, given: RowFields) -> bool
    requires { BeginsWithImage valley table.now × (place ≡ place_of (table_at format_one table.now).rows given.stamp) × BodyInside message.now given }
    ensures { result ≡ held_with_other_body (table_at format_one table.now) given.stamp (body_at message.now given.offset given.reads given.writes) }
{
    other_counts(table, place, given)
        || !same_bytes(
            needed_body(table, message, place, given),
            row::body_of(message, given),
        )
}

// Whether one more row has room: while fewer were added since the view began than a share of what was left then. There are f+1 shares, one for each table of a merge. This is asked here and nowhere else.
fn has_room(h: Header, limit: u16) -> bool
    requires { h.start ≤ h.rows }
    ensures { result ≡ keeps_room limit (f_of h.n) h.start h.rows }
{
    let left = u32::from(limit).saturating_sub(h.start) as usize;
    ((h.rows - h.start) as usize) < left / quorums::quorum(h.n)
}

// A stamp that is not held: the place of its row, if there is room. It is asked only where no row is held, so the refusal for a held one is never reached.
fn new_row(place: Place, h: Header, limit: u16) -> Result<Place, Refusal>
    requires { h.start ≤ h.rows }
    ensures { result ≡ new_or_full (keeps_room limit (f_of h.n) h.start h.rows) place }
{
    let Place::Absent { row: _ } = place else {
        return Err(Refusal::Full);
    };
    if has_room(h, limit) {
        Ok(place)
    } else {
        Err(Refusal::Full)
    }
}

// Messages 1 and 3: the row of the stamp, if it is held with this body, or the place of a new one, if there is room. A refusal that comes before the search has compared nothing.
pub fn row_to_propose<'a>(
    table: &'a [u8],
    message: &'a [u8],
    given: RowFields,
    limit: u16,
) -> Compared<Result<Place, Refusal>>
    requires { BeginsWithImage valley table.now × BodyInside message.now given }
    ensures { (result.found ≡ to_propose (limited limit) (table_at format_one table.now) given.stamp (body_at message.now given.offset given.reads given.writes)) × (result.compared ≡ compared_to_propose (table_at format_one table.now) given.stamp) }
{
    let h = header::read(table);
    if h.is_changing() {
        return Compared::without_search(Err(Refusal::Changing));
    }
    let sought = find(table, h, given.stamp);
    let place = sought.found;
    let Place::Held { row: _ } = place else {
        return sought.with(new_row(place, h, limit));
    };
    if other_body(table, message, place, given) {
        return sought.with(Err(Refusal::OtherBody));
    }
    sought.with(Ok(place))
}
