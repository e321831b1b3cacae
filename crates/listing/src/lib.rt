// Listings (requests No. 6 and No. 10): a run that lends a row list gets, for each fact of the smallest sets and each joining, a row that derives it.
#![tactic(auto)]

pub mod clash; // the row of a clash
mod deny; // that of a clash by denial
pub mod fill; // the rows
mod join; // how many joinings are due
pub mod run; // the open function
mod tell; // the told-same classes
