//! Whether the parts of expressions that have to be constants are constants.
#![tactic(auto)]

mod both;
mod fixed;

pub use both::Fixed;
pub use fixed::{has_constants, is_constant};
