//! The lines of a stimulus, which says which values the inputs of a design have, cycle by cycle.
#![tactic(auto)]

mod fault;
mod fields;
mod header;
mod layout;
mod line;
mod names;
mod repeat;
mod row;
mod row_line;
mod threads;
mod values;

pub use cov_types::{LimitName, Rows};
pub use fault::StimFault;
pub use header::read_header;
pub use layout::Layout;
pub use line::{long_line, read_line};
pub use repeat::MOST_CYCLES;
pub use row::{Row, StimText};
pub use row_line::read_row;
pub use values::place_values;
