// What is read off complete tables: clash, same pairs, the lists, and the end.
#![tactic(auto)]

pub mod conclude;
pub mod end;
pub mod list;
pub mod verdict;
