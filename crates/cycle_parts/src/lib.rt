//! The parts of a cycle beside the runs of processes: what is counted, the line of outputs, the inputs, and the copy of a state.
#![tactic(auto)]

mod copy;
mod count;
mod inputs;
mod outputs;
mod raised;
mod toggle;

pub use copy::copy_state;
pub use count::raise;
pub use inputs::take_inputs;
pub use outputs::{OUTPUT_COLUMNS, put_outputs, put_text};
pub use raised::Raised;
pub use toggle::{first_entries, raise_toggled};
