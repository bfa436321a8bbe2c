//! The stimulus of a run: which values the inputs of a design have, cycle by cycle.
#![tactic(auto)]

mod counted;
mod line_story;
mod row_step;
mod spoken_lines;
mod stim_reader;
mod text_lines;
mod threads;
mod whole_text;

pub use row_step::RowStep;
pub use stim_lines::{LimitName, Row, Rows, StimFault, StimText};
pub use stim_reader::StimReader;
pub use whole_text::read_stim;
