//! Expressions with their names resolved.
#![tactic(auto)]

mod copy;
mod fault;
mod made;
mod node;
mod resolved;

pub use copy::{flat_expression, flat_expressions};
pub use fault::CopyFault;
pub use resolved::{Resolved, Resolves};
