//! The flow check: an order of the assignments and combinational processes of a design, or the first fault of its flow.
#![tactic(auto)]

mod fault;
mod threads;
mod verdict;

pub use fault::FlowFault;
pub use flow_order::{Order, WordMask, active};
pub use verdict::check;
