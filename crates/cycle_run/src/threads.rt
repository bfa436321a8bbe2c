use crate::end::CycleEnd;
use cov_types::crosses_threads;

/// How a run stands crosses threads.
pub(crate) fn ends_cross_threads() {
    crosses_threads::<CycleEnd>();
}
