//! What the heads of generate constructs say: passes of loops, and chosen arms.
#![tactic(auto)]

mod choice;
mod genvar;
mod head;
mod pass;
mod reads;

pub use choice::{ChosenBody, chosen_body, first_true};
pub use genvar::{pass_constant, pass_genvar};
pub use head::{LoopHead, loop_head};
pub use pass::PassNames;
pub use reads::{read_genvar, read_test};
