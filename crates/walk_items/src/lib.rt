//! How the walk through a design goes past the items of a scope that make no scope.
#![tactic(auto)]

mod begin;
mod plain;

pub use begin::begin_item;
pub use plain::{past_quiet, past_regs, past_wires};
