//! The flow conditions of designs, but for loops: the first that fails, and where.
#![tactic(auto)]

mod rules;

pub use rules::{RuleFault, broken_rule};
