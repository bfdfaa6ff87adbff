// The rows of an image and their bodies, as they stand in lent bytes: each row read and written by its index, its body as a part, the tests of both, and where a stamp stands.
//
// Where rows begin is an argument everywhere: what stands before them is for `table`. What a row may hold is said by `rules`.
#![tactic(auto)]

pub mod body;
pub mod lookup;
pub mod reader;
pub mod result;
pub mod row;
pub mod walk;
