//! Designs of typed steps, their states, and one run of a process.
#![tactic(auto)]

mod branch;
mod effects;
mod laws;
mod needs;
mod place;
mod process;
mod run;

pub use design_state::State;
pub use design_tree::{
    Design, Index, Input, Instrumented, Piece, PointRow, Process, ProcessKind, Step, StepArm,
    StepItem, Target, ToggleEntry, Typed, TypedBinary, TypedUnary, Var, VarKind,
};
pub use effects::Effects;
pub use laws::runs_stand;
pub use needs::counter_room;
pub use process::run_process;
pub use step_count::Steps;
