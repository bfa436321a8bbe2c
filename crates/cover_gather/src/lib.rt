//! The data files of the command `cover`, read with a filter, and with the points that each covers where tests are ranked.
#![tactic(auto)]

mod adding;
mod points;
mod reading;
mod tally;
mod whole;

pub use tally::Gathered;
pub use whole::gather;
