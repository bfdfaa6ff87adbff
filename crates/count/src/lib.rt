// The coordinator's count, over replies in plain numbers, over a lent list of them, and over their bytes.
#![tactic(auto)]

pub mod answer;
pub mod call;
pub mod lent;
