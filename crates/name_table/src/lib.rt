//! Tables from names to values, in which the first value of a name counts.
#![tactic(auto)]

mod table;

pub use table::NameTable;
