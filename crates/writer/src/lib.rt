// The writer: an accepted book laid out again, without the statements that repeat earlier ones.
#![tactic(auto)]

mod keep; // which statements stay
mod lay; // what is laid over the lent bytes
mod record; // statement records as bytes: their digits, and whether two are alike
mod tree; // the records kept so far, found by their digits
pub mod write; // the open function
