// The step over the statements that count in a run: all of them, those in force on its day, those that its reader may read, or both.
#![tactic(auto)]

pub mod heed;
pub mod names;
