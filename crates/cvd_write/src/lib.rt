//! Designs written as design files.
#![tactic(auto)]

mod expression;
mod fault;
mod section;
mod step;
mod target;
mod whole;
mod word;
mod writer;

pub use fault::WriteFault;
pub use whole::encode;
