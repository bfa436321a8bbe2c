//! Declared ranges of vectors and memories, and what parameters have by their forms.
#![tactic(auto)]

mod bound;
mod fault;
mod parameter;
mod range;

pub use fault::RangeFault;
pub use parameter::parameter_value;
pub use range::{Span, Words, memory_range, vector_range};
