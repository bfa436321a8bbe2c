//! The names in the heads of loops of a statement.
#![tactic(auto)]

mod heads;

pub use heads::loop_names;
