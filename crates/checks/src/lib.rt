// What the rows of a lent table say of a transaction, by the merge's check and by that of messages 1, and of a register, by message 7. One pass over the rows each, from the last to the first; a check ends where no row can speak.
//
// It is asked that rows and bodies stand there, and by the checks that stamps rise, and not that the table is by the rules: a merge at work holds rows that are not settled yet.
#![tactic(auto)]

pub mod accesses;
pub mod checked;
pub mod clashes;
pub mod day;
pub mod floor;
pub mod lent;
pub mod newest;
pub mod pass;
