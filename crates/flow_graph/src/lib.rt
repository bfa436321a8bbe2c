//! Orders and circles of a graph that is given by the successors of each vertex.
#![tactic(auto)]

mod answer;
mod circle;
mod falling;
mod levels;
mod order;

pub use answer::{Sorted, is_graph, sort};

#[cfg(test)]
mod tests;
