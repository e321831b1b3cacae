// What a book will need: a figure without a run, worked out on classes and roles alone.
#![tactic(auto)]

mod clause; // a statement as rules of three premises and one conclusion
mod close; // the rules used until nothing is new
mod cursor; // which of the facts held is used next
mod gives; // what each concept gives
pub mod need; // the open function
mod queue; // the facts held, in the order in which they came to be
mod record; // records by their bytes
mod table; // the rules as a table, found by their premises
