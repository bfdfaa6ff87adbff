// A merge's run: images laid end to end in one lent buffer. Each is handed on as the part of the run that begins with it.
//
// Whether the run is one or more whole images, whether they are wrong for a merge, and the greatest last normal view among them.
#![tactic(auto)]

pub mod newest;
pub mod walk;
pub mod whole;
pub mod wrong;
