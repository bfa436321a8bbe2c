//! What comes before and behind the run of a `sim`: the text of its design, the header of its stimulus, and its end.
#![tactic(auto)]

mod asked;
mod design_text;
mod end_room;
mod stimulus_head;

pub use asked::Simulation;
pub use design_text::take_design;
pub use end_room::EndRoom;
pub use stimulus_head::{OpenStimulus, open_stimulus};
