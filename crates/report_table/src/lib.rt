//! The tables of source files that reports are made from.
#![tactic(auto)]

mod all_tables;
mod data_point;
mod file_groups;
mod file_table;
mod follow;
mod line_counts;
mod line_groups;
mod ordered;
mod placing;

pub use all_tables::tables;
