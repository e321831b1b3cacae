// The conclusions of a book: told facts and rules run to the smallest sets, and how a run ends.
#![tactic(auto)]

pub mod allot;
pub mod collect;
pub mod enter;
pub mod lists;
pub mod part;
pub mod run;
pub mod saturate;
pub mod told;
