//! Designs as numbered variables and processes of typed steps.
#![tactic(auto)]

mod design;
mod instrumented;
mod operator;
mod step;
mod threads;
mod typed;

pub use cov_types::{ProcessKind, Var, VarKind};
pub use design::{Design, Input, Process};
pub use instrumented::{Instrumented, PointRow, ToggleEntry};
pub use operator::{TypedBinary, TypedUnary};
pub use step::{Piece, Step, StepArm, StepItem, Target};
pub use typed::{Index, Typed};
