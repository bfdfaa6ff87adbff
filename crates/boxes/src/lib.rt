// A group of boxes whose table buffers stand side by side in one lent buffer, stepped by calls: every box fresh, a message to one box, a merge of what boxes hold. No rule is asked of whoever steps it.
#![tactic(auto)]

pub mod arrive;
mod buffers;
pub mod start;
pub mod together;
