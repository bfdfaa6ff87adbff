// What is decided of the stamps of a merge before a byte is written: whether all of them together refuse it, and what each one's row holds before any check.
#![tactic(auto)]

pub mod survey;
pub mod unchecked;
