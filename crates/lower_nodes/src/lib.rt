//! Typed forms of the nodes of expressions, from those of their parts.
#![tactic(auto)]

mod binary;
mod braces;
mod by_itself;
mod call;
mod choose;
mod fault;
mod together;
mod unary;

pub use binary::read_binary;
pub use braces::{Gathering, Parts, gather, joined, no_parts, read_join};
pub use by_itself::{Reading, alone, read_number};
pub use call::read_call;
pub use choose::read_choice;
pub use fault::{ExpressionFault, earlier};
pub use together::{both, kept};
pub use unary::read_unary;
