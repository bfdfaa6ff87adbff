// What the used tables of a run say of one stamp, and which stamps they hold.
//
// Used are the tables of the greatest last normal view. A walk over the stamps goes up all tables at once, with a cursor in each, so that no stamp is sought. The rows of a stamp are gathered once, by value, and every question is asked of that value.
#![tactic(auto)]

pub mod agreed;
pub mod bodies;
pub mod held;
pub mod results;
pub mod stamps;
pub mod state;
pub mod walk;
