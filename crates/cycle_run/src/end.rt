ghost use Rattle.std.specs.Prelude.{◌≡◌};
ghost use Rattle.circuit_run.specs.Ends.{end_of};
ghost use Rattle.cycle_run.specs.Ends.{end_seen};

/// How a run stands after its start or after a cycle.
#[derive(Clone, Copy, Debug, PartialEq, Eq)]
pub enum CycleEnd {
    /// It goes on.
    Goes,
    /// `$finish` was executed, and no `$stop`.
    Finished,
    /// `$stop` was executed.
    Stopped,
}

/// How a run stands where `$finish` and `$stop` were executed or not.
pub(crate) fn cycle_end(finished: bool, stopped: bool) -> CycleEnd
    ensures { end_seen result ≡ end_of finished stopped }
{
    if stopped {
        return CycleEnd::Stopped;
    }
    if finished {
        return CycleEnd::Finished;
    }
    CycleEnd::Goes
}
