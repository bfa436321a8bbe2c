//! The data file of a run's points, made in memory that was taken before.
#![tactic(auto)]

mod data_text;
mod lines;
mod point_count;

pub use data_text::DataText;
