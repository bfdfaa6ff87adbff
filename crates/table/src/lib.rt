// The table image of document 01: its header, whether bytes begin with an image and how long it is, and the fresh table.
//
// This crate, `rows` under it and `edit` alone know where a byte of a table stands. What a table may hold is said by `rules`.
#![tactic(auto)]

pub mod form;
pub mod fresh;
pub mod header;
pub mod image;
pub mod model;
