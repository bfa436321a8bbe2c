//! The first process and the least variable for which a condition on designs fails, and the least variable of spans.
#![tactic(auto)]

mod driven;
mod least;
mod place;

pub use driven::{insert_driven, least_driven, settles};
pub use least::{least_met, lesser};
pub use place::Place;
