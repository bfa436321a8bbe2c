//! Lists of rows by number: rows come in any order, each for the list of a number.
#![tactic(auto)]

mod lists;

pub use lists::RowLists;
