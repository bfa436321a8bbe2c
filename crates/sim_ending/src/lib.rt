//! How a `sim` ends once it may have printed: in memory that was taken before.
#![tactic(auto)]

mod data_file;
mod refusal_line;
mod stimulus_lines;

pub use data_file::DataFile;
pub use stimulus_lines::StimulusLines;
