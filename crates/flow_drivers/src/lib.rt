//! The flow conditions that speak of who drives and who sees a variable.
#![tactic(auto)]

mod drivers;
mod flags;
mod mixed;
mod private;
mod watch;

pub use drivers::two_drivers;
pub use flow_least::Place;
pub use mixed::mixed_driver;
pub use private::not_private;
