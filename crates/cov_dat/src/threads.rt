use crate::data_reader::DataReader;
use crate::fault::DataFault;
use crate::merge_fault::MergeFault;
use crate::record_list::{Record, RecordList};
use crate::record_step::RecordStep;
use cov_types::crosses_threads;

/// Readers, records and faults cross threads.
fn readers_cross_threads() {
    crosses_threads::<DataReader>();
    crosses_threads::<DataFault>();
    crosses_threads::<MergeFault>();
    crosses_threads::<Record>();
    crosses_threads::<RecordList>();
    crosses_threads::<RecordStep>();
}
