use crate::design::{Design, Input, Process};
use crate::instrumented::{Instrumented, PointRow, ToggleEntry};
use crate::operator::{TypedBinary, TypedUnary};
use crate::step::{Piece, Step, StepArm, StepItem, Target};
use crate::typed::{Index, Typed};
use cov_types::crosses_threads;

/// Expressions and steps cross threads.
pub(crate) fn steps_cross_threads() {
    crosses_threads::<TypedUnary>();
    crosses_threads::<TypedBinary>();
    crosses_threads::<Typed>();
    crosses_threads::<Index>();
    crosses_threads::<Target>();
    crosses_threads::<Piece>();
    crosses_threads::<StepItem>();
    crosses_threads::<StepArm>();
    crosses_threads::<Step>();
}

/// Designs cross threads, with all their parts.
pub(crate) fn designs_cross_threads() {
    crosses_threads::<Input>();
    crosses_threads::<Process>();
    crosses_threads::<Design>();
    crosses_threads::<ToggleEntry>();
    crosses_threads::<PointRow>();
}

/// Instrumented designs cross threads.
pub(crate) fn instrumented_cross_threads() {
    crosses_threads::<Instrumented>();
}
