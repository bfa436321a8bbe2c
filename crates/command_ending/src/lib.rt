//! How a command of the program ends: its status, its line on standard error, and what stands then.
#![tactic(auto)]

mod ending;
mod inputs;
mod lines;
mod refusal;
mod status;
mod stores;

pub use ending::Ending;
pub use inputs::{are_too_many, open_input, take_input};
pub use lines::{append_number, limit_line, read_line, store_line};
pub use refusal::{bad_data, bad_design, bad_design_file, over_limit};
pub use status::Status;
pub use stores::{Store, finish};
