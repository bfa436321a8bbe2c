//! The sections of a design file, read line by line.
#![tactic(auto)]

mod counters;
mod ending;
mod field;
mod heading;
mod key;
mod kind;
mod output;
mod point;
mod toggle;
mod var;
mod variable;
mod whole;

pub use ending::close;
pub use heading::{read_heading, wants_more};
pub use kind::read_process_kind;
pub use output::read_outputs;
pub use point::read_points;
pub use toggle::read_toggles;
pub use var::{Vars, read_vars};
pub use variable::{is_input, is_plain};
pub use whole::{read_counters, read_first_line, read_last_line};
