// The merge for a view: the public call. Every refusal is decided before a byte of the output is written.
//
// The stamps of the used tables are gone through one by one, each time the same way: once to decide 5, 6 and 7, once to write their rows. Then the rows that wait for a check are checked where they stand.
#![tactic(auto)]

pub mod call;
pub mod write;
