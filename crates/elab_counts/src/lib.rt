//! How many items and generate constructs stand in an item.
#![tactic(auto)]

mod items;
mod scopes;
mod sum;

pub use items::{count, count_body};
pub use scopes::constructs;
