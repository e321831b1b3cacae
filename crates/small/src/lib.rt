// Every small book, by its position.
#![tactic(auto)]

mod laid; // a book by value, laid out byte after byte
pub mod lent; // the book at a position, into lent bytes
pub mod small; // the book at a position
mod statement; // the statements, as a table
