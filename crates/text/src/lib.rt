// What the program prints of a run, as bytes in a lent list.
#![tactic(auto)]

pub mod line;
mod put;
pub mod run;
