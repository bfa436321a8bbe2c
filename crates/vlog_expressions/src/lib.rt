//! Expressions, targets and the heads of loops, read from tokens.
#![tactic(auto)]

mod expressions;
mod node;
mod part;
mod target;

pub use expressions::{expression, part_of};
pub use part::{ExprRule, condition, expression_before, for_head, name_token};
pub use target::whole_target;
