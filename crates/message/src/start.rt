// The image that a start view carries: one by the rules of any table, with nothing behind it, and what a view starts with.
#![tactic(auto, using(rules::proofs::Chains::chain), unfolding(rules::specs::Tests::both, rules::specs::Tests::either))]

ghost use Rattle.std.specs.Prelude.{◌≡◌, ◌<◌, ◌≤◌, ◌+◌, ◌*◌, ◌%◌, eqb, leb, length};
ghost use Rattle.rules.specs.Tests.{both, either, every};
ghost use Rattle.rules.specs.Circumstances.{settled, starts_view};
ghost use Rattle.rows.specs.Read.{rows_at};
ghost use Rattle.rows.specs.Fields.{row_length};
ghost use Rattle.table.specs.Headers.{header_length, header_at};
ghost use Rattle.table.specs.Images.{format_one};
ghost use Rattle.table.specs.Inner.Models.{model_of};
ghost use Rattle.table.specs.Parse.{table_at};
ghost use Rattle.message.specs.Inner.Begun.{starts_at};

use rows::row;
use table::header::Header;
use table::model::Model;
use table::{header, image};

// A byte is 0, or late enough in its list: nothing, or what is final or done.
fn code_settled(code: u8, first_settled: u8) -> bool
    ensures { result ≡ either (eqb code 0) (leb first_settled code) }
{
    code == 0 || first_settled <= code
}

// Both bytes of a row are settled: nothing of it is tentative or only noted. Final prepares are 5 and more, done outcomes 3 and more.
fn codes_settled(prepare: u8, outcome: u8) -> bool
    ensures { result ≡ both (either (eqb prepare 0) (leb 5 prepare)) (either (eqb outcome 0) (leb 3 outcome)) }
{
    code_settled(prepare, 5) && code_settled(outcome, 3)
}

// Every row is settled.
#[tactic(auto, using(crate::proofs::Settled::settled_next, crate::proofs::Settled::unsettled, crate::proofs::Settled::settled_end))]
fn rows_settled(image: &[u8], begin: usize, rows: usize) -> bool
    requires { begin + row_length * rows ≤ length image.now }
    ensures { result ≡ every settled (rows_at image.now begin rows) }
{
    for i in 0..rows {
        let row = row::row_at(image, begin, i);
        if !codes_settled(row.prepare, row.outcome) {
            return false;
        }
    }
    true
}

// Normal, of this view, and of the box that the view falls to.
fn view_begins(h: Header, n: u8, view: u32) -> bool
    requires { 0 < n }
    ensures { result ≡ both (eqb h.mode 0) (both (eqb h.view view) (eqb h.boxnumber (view % n))) }
{
    h.mode == 0 && h.view == view && u32::from(h.boxnumber) == view % u32::from(n)
}

// The same group, and all rows there when the view begins.
fn group_begins(h: Header, n: u8) -> bool
    ensures { result ≡ both (eqb h.n n) (eqb h.start h.rows) }
{
    h.n == n && h.start == h.rows
}

// All that is asked of the header; what any table has to be was asked before.
fn header_begins(h: Header, n: u8, view: u32) -> bool
    requires { 0 < n }
    ensures { result ≡ both (both (eqb h.mode 0) (both (eqb h.view view) (eqb h.boxnumber (view % n)))) (both (eqb h.n n) (eqb h.start h.rows)) }
{
    view_begins(h, n, view) && group_begins(h, n)
}

// Whether the table that an image holds can start a view in a group of `n`.
#[tactic(auto, using(rules::proofs::Chains::chain, crate::proofs::Starting::starts_tests))]
fn starts_view(image: &[u8], n: u8, view: u32) -> bool
    requires { (header_length + row_length * (header_at image.now).rows ≤ length image.now) × (0 < n) }
    ensures { result ≡ starts_view n view (table_at format_one image.now) }
{
    let h = header::read(image);
    header_begins(h, n, view) && rows_settled(image, header::LENGTH, h.rows as usize)
}

// Whether bytes are one image and nothing behind it, that starts this view.
#[tactic(auto, using(rules::proofs::Chains::chain, crate::proofs::Starting::nothing_starts, crate::proofs::Starting::image_starts, crate::proofs::Starting::longer_starts, crate::proofs::Starting::found_inside), unfolding(rules::specs::Tests::both))]
pub fn valid(bytes: &[u8], n: u8, view: u32, model: Model) -> bool
    requires { 0 < n }
    ensures { result ≡ starts_at format_one (model_of model) n view bytes.now }
{
    let Some(length) = image::find(bytes, model) else {
        return false;
    };
    length == bytes.len() && starts_view(bytes, n, view)
}
