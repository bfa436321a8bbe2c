use crate::row_step::RowStep;
use cov_types::crosses_threads;

/// The types of this crate may be sent to another thread, and shared with one.
fn all_cross_threads() {
    crosses_threads::<RowStep>();
}
