//! The loop variables of a design: the integers that the heads of loops name.
#![tactic(auto)]

mod turned;

pub use turned::loop_variables;
