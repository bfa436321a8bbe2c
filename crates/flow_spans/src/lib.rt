//! The spans of bits that expressions read and targets name, whatever the state.
#![tactic(auto)]

mod clip;
mod reads;
mod targets;

pub use clip::Places;
pub use flow_marks::Span;
pub use reads::{expression_reads, fixed_position};
pub use targets::{Aim, target_aim};
