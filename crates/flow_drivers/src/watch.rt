ghost use Rattle.std.specs.Prelude.{◌≡◌, ℕ, ◌<◌, All, if◌then◌else◌, length, slice_index_or};
ghost use Rattle.flow_uses.specs.Uses.{has_var};
ghost use Rattle.flow_drivers.specs.Watching.{with_process, seen_by_other, has_read_var, no_watch};

use flow_marks::Span;

/// Which processes see a variable.
#[derive(Clone, Copy, Debug)]
pub(crate) enum Watch {
    Nobody,
    One(u32),
    Several,
}

/// The same where one process more sees it.
fn with(watch: Watch, process: u32) -> Watch
    ensures { result ≡ with_process watch process }
{
    match watch {
        Watch::Nobody => Watch::One(process),
        Watch::Several => Watch::Several,
        Watch::One(first) => {
            if first == process {
                watch
            } else {
                Watch::Several
            }
        }
    }
}

/// Whether a process other than this one sees it.
pub(crate) fn by_other(watch: Watch, process: u32) -> bool
    ensures { result ≡ seen_by_other watch process }
{
    match watch {
        Watch::Nobody => false,
        Watch::Several => true,
        Watch::One(first) => first != process,
    }
}

/// Notes that a process writes the variables of spans.
pub(crate) fn watch_written(watches: &mut [Watch], spans: &[Span], process: u32)
    requires { All (λ s. s.var < length watches.old) spans.now }
    ensures { (v : ℕ)
        → slice_index_or watches.new v no_watch ≡
        (if has_var spans.now v then with_process (slice_index_or watches.old v no_watch) process else slice_index_or watches.old v no_watch) }
{
    for span in spans {
        watches[span.var as usize] = with(watches[span.var as usize], process);
    }
}

/// Notes that a process reads bits of the variables of spans.
pub(crate) fn watch_read(watches: &mut [Watch], spans: &[Span], process: u32)
    requires { All (λ s. s.var < length watches.old) spans.now }
    ensures { (v : ℕ)
        → slice_index_or watches.new v no_watch ≡
        (if has_read_var spans.now v then with_process (slice_index_or watches.old v no_watch) process else slice_index_or watches.old v no_watch) }
{
    for span in spans {
        if span.place < span.place_end {
            watches[span.var as usize] = with(watches[span.var as usize], process);
        }
    }
}
