use crate::files::FileFault;
use crate::line_cutter::LineCutter;
use crate::line_step::{CutFault, LineStep};
use crate::sink::SinkFault;
use crate::take::TakeFault;
use cov_types::crosses_threads;

/// Faults and cutters cross threads.
pub(crate) fn faults_and_cutters_cross_threads() {
    crosses_threads::<CutFault>();
    crosses_threads::<FileFault>();
    crosses_threads::<LineCutter>();
    crosses_threads::<LineStep>();
    crosses_threads::<SinkFault>();
    crosses_threads::<TakeFault>();
}
