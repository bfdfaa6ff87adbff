// Messages to a box: bytes to one of the seven messages, by every rule that a message has to keep, or to none.
#![tactic(auto)]

pub mod carried;
pub mod kinds;
pub mod start;
