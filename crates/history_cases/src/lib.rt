// Histories played out in the checker: lawful ones, so that the theorem of `history` is about something, and bent ones, after which the promise fails.
//
// There is no code here, and nothing rests on this crate.
#![tactic(auto)]
