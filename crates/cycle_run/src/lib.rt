//! What the calls of a machine are made of: a row is settled, a settled state is counted, and the processes of a phase are run to their end.
#![tactic(auto)]

mod closing;
mod end;
mod line;
mod row;
mod tally;
mod threads;

pub use closing::close_phase;
pub use end::CycleEnd;
pub use line::Line;
pub use row::settle_row;
pub use tally::count_settled;
