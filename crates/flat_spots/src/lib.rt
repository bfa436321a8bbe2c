//! What a walk through a design comes to, as far as its flat source is concerned.
#![tactic(auto)]

mod spot;

pub use spot::Spot;
