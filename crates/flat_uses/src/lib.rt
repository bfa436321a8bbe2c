//! The names that stand in expressions, and those that targets write.
#![tactic(auto)]

mod names;
mod targets;

pub use names::{NameTest, any_name, any_name_in};
pub use targets::{any_target, is_target};
