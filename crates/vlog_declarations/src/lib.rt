//! The parts of declarations, covers and instances, read from tokens.
#![tactic(auto)]

mod connection;
mod declarator;
mod item_part;

pub use connection::{InstanceRule, parameter_values};
pub use declarator::{AssignRule, ParamRule, RegRule, WireRule};
pub use item_part::{NameRule, clock, cover, name_place, param_form, signed_range};
