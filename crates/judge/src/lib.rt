// Is this individual of that concept? The run of a book, and the judgement by what it leaves.
#![tactic(auto)]

pub mod allot;
pub mod answer;
pub mod judge;
