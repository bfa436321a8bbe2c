//! Which assignment or combinational process drives what another one reads: an order in which each bit is written before
//! it is read, or the circle that stands against one.
#![tactic(auto)]

mod answer;
mod joined;
mod links;
mod lists;
mod owners;
mod stretch;

pub use answer::order_of;
pub use flow_hubs::Sorted;
