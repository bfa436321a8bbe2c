use cycle_run::CycleEnd;
use stim_lines::StimFault;

/// Where a run over the rows of a stimulus ended.
#[derive(Clone, Copy, Debug, PartialEq, Eq)]
pub enum RowsEnd {
    /// A `$finish` or `$stop` was executed, or the run goes on and the stimulus is at its end.
    Ended(CycleEnd),
    /// A line was refused.
    Refused(StimFault),
    /// A read of the stimulus failed.
    ReadFailed,
    /// A put of the output failed.
    PutFailed,
}
