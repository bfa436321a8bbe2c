//! Orders and circles of a graph in which each of some vertices leads to each of others: such edges go through a hub, so that
//! there are no more of them than vertices on both sides.
#![tactic(auto)]

mod answer;
mod chains;
mod hub;
mod rows;
mod sharing;

pub use answer::sort_first;
pub use chains::Chains;
pub use flow_graph::Sorted;
pub use hub::join;
pub use rows::{no_rows, note};
