//! What stands at the places of a design, and why a place is refused.
#![tactic(auto)]

mod declarations;
mod judged;
mod loops;
mod port;

pub use declarations::{judge_reg, judge_wire};
pub use loops::{judge_choice, judge_loop, judge_step, judge_test};
pub use port::judge_port;
