//! Rows of points in the order of their keys.
#![tactic(auto)]

mod order;

pub use order::in_key_order;
