//! A run of a machine over the rows of a stimulus, with its output put in pieces.
#![tactic(auto)]

mod cycle;
mod row;
mod rows;
mod rows_end;
mod whole;

pub use rows_end::RowsEnd;
pub use whole::run_stimulus;
