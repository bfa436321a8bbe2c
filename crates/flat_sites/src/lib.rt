//! Where the statements of a process stand: a place among the scopes, and the loops around with their values.
#![tactic(auto)]

mod site;

pub use site::{Site, values_at, with_loop};
