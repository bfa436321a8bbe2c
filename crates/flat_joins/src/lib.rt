//! The connections of instances, each with its port.
#![tactic(auto)]

mod join;
mod lone;
mod pair;

pub use join::{Joined, joins};
pub use lone::{is_input, lone_name};
pub use pair::{Pair, pairs};
