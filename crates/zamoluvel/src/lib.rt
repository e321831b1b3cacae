// The open functions for callers in C and Rust (include/saturation.h), as one library. A slice is a pointer and a length.
#![tactic(auto)]

pub mod check_rows; // the checker of rows
pub mod is; // is this individual of that concept?
pub mod need; // what a book will need
pub mod run; // a run, and the named part of a list
pub mod small_book; // every small book
pub mod what_if; // what would this statement do?
pub mod write; // a book cleaned
