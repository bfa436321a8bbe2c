//! Runs of checked designs, cycle by cycle, with counters.
#![tactic(auto)]

mod machine;
mod prepare;

pub use cycle_run::CycleEnd;
pub use flow_order::Order;
pub use machine::Machine;
pub use stim_lines::Row;
