// What would this statement do? A run, and what a run of a copy of the book with one statement more has beyond it.
#![tactic(auto)]

mod allot;
pub mod answer;
mod copy;
mod record;
mod remove;
mod stay;
mod subtract;
pub mod what_if;
