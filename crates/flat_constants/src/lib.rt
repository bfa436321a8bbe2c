//! Values of the parts of flat expressions that have to be constants.
#![tactic(auto)]

mod copy;
mod nameless;
mod span;
mod value;

pub use elab_constants::ConstantFault;
pub use span::{Span, count, distance};
pub use value::{FixedValue, fixed_value};
