// Replies to count, and what is kept of them while they are gone through: what is bad in them, and what they say.
#![tactic(auto)]

pub mod held;
pub mod tally;
