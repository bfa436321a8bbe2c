use crate::mask::WordMask;
use crate::order::Order;
use cov_types::crosses_threads;

/// Orders cross threads, with what their processes read.
fn orders_cross_threads() {
    crosses_threads::<WordMask>();
    crosses_threads::<Order>();
}
