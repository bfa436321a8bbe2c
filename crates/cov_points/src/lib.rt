//! Coverage points: what a table of points holds, and the key of a point.
#![tactic(auto)]

mod fault;
mod options;
mod point;
mod table;
mod threads;

pub use cov_types::LineRange;
pub use fault::PointFault;
pub use options::CoverOptions;
pub use point::{Point, PointKind};
pub use table::{PointTable, TogglePoint};
