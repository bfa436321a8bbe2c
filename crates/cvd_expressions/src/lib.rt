//! Expressions of a design file, read and tested.
#![tactic(auto)]

mod built;
mod expression;
mod many;
mod one;
mod put;
mod test;

pub use expression::{Expression, read_expression};
