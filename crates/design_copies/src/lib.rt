//! Copies of the parts of a design.
#![tactic(auto)]

mod expression;
mod part;
mod variable;

pub use expression::copy_expression;
pub use part::{copy_items, copy_pieces, copy_targets};
pub use variable::{copy_inputs, copy_numbers, copy_variables};
