// Derivations (request No. 6): rows of nine numbers, and the checker that says how many of them stand.
#![tactic(auto)]

mod chain; // rules that join two or three premises
pub mod check; // the checker
pub mod deep; // the leaves of each concept, at any depth of And
mod denied; // what the statements deny
pub mod enter; // the statements, entered into the tables
mod entry; // what a statement puts into them
pub mod fact; // facts by number
pub mod pair; // the pairs of classes that clash
mod order; // the premises of a row in any order
pub mod row; // rows, and what they claim
mod rule; // one use of a rule, from premises in order
mod statement; // one use of a statement
