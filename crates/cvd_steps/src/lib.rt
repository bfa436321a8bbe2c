//! The blocks of the processes of a design file, read and tested.
#![tactic(auto)]

mod body;
mod border;
mod item;
mod kept;
mod line;
mod place;
mod plain;
mod process;
mod sums;
mod word;

pub use body::read_body;
pub use kept::Body;
pub use process::Process;
pub use sums::Sums;
