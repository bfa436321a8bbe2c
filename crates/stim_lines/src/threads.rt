use crate::fault::StimFault;
use crate::layout::Layout;
use crate::row::{Row, StimText};
use cov_types::crosses_threads;

/// The types of this crate may be sent to another thread, and shared with one.
fn all_cross_threads() {
    crosses_threads::<StimFault>();
    crosses_threads::<Layout>();
    crosses_threads::<Row>();
    crosses_threads::<StimText>();
}
