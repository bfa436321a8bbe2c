use crate::fault::PointFault;
use crate::options::CoverOptions;
use crate::point::{Point, PointKind};
use crate::table::{PointTable, TogglePoint};
use cov_types::crosses_threads;

/// Options, points, tables and faults cross threads.
pub(crate) fn tables_cross_threads() {
    crosses_threads::<CoverOptions>();
    crosses_threads::<PointKind>();
    crosses_threads::<Point>();
    crosses_threads::<TogglePoint>();
    crosses_threads::<PointTable>();
    crosses_threads::<PointFault>();
}
