//! The counters that the counts of points are told from.
#![tactic(auto)]

mod arms;
mod bits;
mod lists;

pub use arms::point_arms;
pub use bits::bit_counters;
pub use lists::{PointLists, counter_of, point_lists};
