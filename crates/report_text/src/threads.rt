//! What threads may share and hand to one another.

use crate::file_table::{CountedLine, FileTable, LinePoint};
use crate::options::ReportOptions;
use crate::report_fault::ReportFault;

fn crosses_threads<T: Send + Sync>() {}

fn tables_options_and_faults_cross_threads() {
    crosses_threads::<CountedLine>();
    crosses_threads::<LinePoint<'static>>();
    crosses_threads::<FileTable<'static>>();
    crosses_threads::<ReportOptions>();
    crosses_threads::<ReportFault>();
}
