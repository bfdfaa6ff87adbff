// A box: any bytes of a message, against any bytes of a table, to a number, a reply and the table after it.
#![tactic(auto)]

pub mod call;
pub mod read;
pub mod serve;
pub mod views;
