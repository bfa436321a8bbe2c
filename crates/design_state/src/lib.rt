//! The states of a design's variables, and the values of expressions in them.
#![tactic(auto)]

mod evaluate;
mod position;
mod state;
mod update;

pub use evaluate::{position_at, value};
pub use position::{Position, is_negative, selected};
pub use state::State;
pub use update::Update;
