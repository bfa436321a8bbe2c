//! How the walk through a design goes on at the items of a scope, by what each is.
#![tactic(auto)]

mod items;
mod kinds;

pub use items::step_items;
