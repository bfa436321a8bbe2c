use crate::fault::FlowFault;
use cov_types::crosses_threads;

/// The faults of this crate cross threads.
fn faults_cross_threads() {
    crosses_threads::<FlowFault>();
}
