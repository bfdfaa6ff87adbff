// The fresh table: the public call, which is done or refused.
ghost use Rattle.std.specs.Prelude.{◌≡◌, ◌≤◌};
ghost use Rattle.rules.specs.Tables.{valley};
ghost use Rattle.numbers.specs.Inner.Ended.{ended_with};
ghost use Rattle.table.specs.Inner.Models.{model_of};
ghost use Rattle.table.specs.Fresh.{fresh_number, fresh_buffer};
ghost use Rattle.table.specs.Headers.{header_length};

use crate::header;
use crate::header::Header;
use crate::model::Model;
use numbers::Refusal;

// The fresh table of a model, written into a lent buffer whose old bytes are never looked at.
#[tactic(auto, using(crate::proofs::FreshCall::fresh_ways, rules::proofs::Chains::tests), unfolding(rules::specs::Circumstances::too_small, rules::specs::Circumstances::bad_group))]
pub fn fresh_in(table: &mut [u8], model: Model, n: u8, boxnumber: u8) -> Result<(), Refusal>
    requires { header_length ≤ model.least }
    ensures value { ended_with result ≡ fresh_number (model_of model) table.old n boxnumber }
    ensures table_after { table.new ≡ fresh_buffer (model_of model) table.old n boxnumber }
{
    if table.len() < model.least {
        return Err(Refusal::SmallBuffer);
    }
    if !header::box_valid(n, boxnumber) {
        return Err(Refusal::BadMessage);
    }
    header::write(table, Header::fresh(n, boxnumber));
    Ok(())
}

// The same for a valley box.
pub fn fresh(table: &mut [u8], n: u8, boxnumber: u8) -> Result<(), Refusal>
    ensures value { ended_with result ≡ fresh_number valley table.old n boxnumber }
    ensures table_after { table.new ≡ fresh_buffer valley table.old n boxnumber }
{
    fresh_in(table, Model::valley(), n, boxnumber)
}
