//! The moves of the walk through a design from one place to the next.
#![tactic(auto)]

mod items;

pub use items::{
    number_after, past_parameters, past_plain, to_instances, to_loop, to_region, to_turn,
};
