//! Line lists of sets of lines.
#![tactic(auto)]

mod lists;

pub use lists::line_list;
