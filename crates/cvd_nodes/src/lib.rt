//! Expressions of a design file, read as a flat list of nodes.
#![tactic(auto)]

mod field;
mod head;
mod node;
mod nodes;

pub use field::{low, number8, number32};
pub use head::Head;
pub use node::Node;
pub use nodes::read_nodes;
