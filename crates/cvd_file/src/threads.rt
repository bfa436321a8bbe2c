//! What threads may share and hand to one another.

use crate::fault::CvdFault;

fn crosses_threads<T: Send + Sync>() {}

fn faults_cross_threads() {
    crosses_threads::<CvdFault>();
}
