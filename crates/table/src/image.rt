// Whether lent bytes begin with an image, and how long it is.
ghost use Rattle.std.specs.Prelude.{◌≡◌, ◌≤◌, length};
ghost use Rattle.rules.specs.Tests.{both};
ghost use Rattle.rows.specs.Inner.Rows.{rows_by_rule_at};
ghost use Rattle.table.specs.Inner.Models.{model_of};
ghost use Rattle.table.specs.Inner.HeaderTests.{header_by_rule_at};
ghost use Rattle.table.specs.Images.{format_one};
ghost use Rattle.table.specs.Parse.{parse, image_found};

use crate::header;
use crate::header::Header;
use crate::model::Model;

// An image of this format whose rows begin there: first what its header tells, then the rows.
#[tactic(auto, using(rules::proofs::Chains::chain, crate::proofs::Headers::header_sizes))]
fn whole_valid(s: &[u8], h: Header, format: u8, begin: usize, limit: u16) -> bool
    requires { begin ≤ 65536 }
    ensures { result ≡ both (header_by_rule_at h format begin limit (length s.now)) (rows_by_rule_at s.now begin h.rows h.length) }
{
    header::valid(h, format, begin, limit, s.len())
        && rows::walk::rows_valid(s, begin, h.rows as usize, h.length as usize)
}

// How long the image is that lent bytes begin with, for a model. What follows it is not looked at.
#[tactic(auto, using(wire::proofs::Numbers::all_of, crate::proofs::Found::short_found, crate::proofs::Found::tested_found))]
pub fn find(s: &[u8], model: Model) -> Option<usize>
    ensures { result ≡ image_found format_one (parse format_one (model_of model) s.now) }
{
    if s.len() < header::LENGTH {
        return None;
    }
    let h = header::read(s);
    whole_valid(s, h, header::FORMAT_ONE, header::LENGTH, model.limit).then_some(h.length as usize)
}
