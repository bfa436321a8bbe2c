//! The modules that instances make, and why instances are refused.
#![tactic(auto)]

mod judge;

pub use judge::{MadeOf, judge_instances};
