ghost use Rattle.std.specs.Prelude.{◌≡◌, ℕ, ◌<◌, ◌==◌, ◌||◌, ◌&&◌, All, IsTrue, false, length, slice_index_or, IfOk};
ghost use Rattle.std.specs.List.{list_any};
ghost use Rattle.design_meaning.specs.Valid.{IsValidDesign};
ghost use Rattle.design_meaning.specs.Flow.{IsNotPrivate};
ghost use Rattle.flow_least.specs.First.{IsFirst};
ghost use Rattle.flow_least.specs.Least.{IsLeastOf};
ghost use Rattle.flow_uses.specs.Uses.{AreUsesOf, no_uses, has_var};
ghost use Rattle.flow_drivers.specs.Flags.{AreWithin};
ghost use Rattle.flow_drivers.specs.Watching.{AreWatched, HasWatched, no_watch, seen_by_other, is_seen, IsSeenIn};

use crate::drivers::lasts;
use crate::watch::{Watch, by_other, watch_read, watch_written};
use cov_types::{NoMemory, ProcessKind};
use design_tree::Design;
use flow_least::{Place, lesser};
use flow_marks::Span;
use flow_uses::Uses;
use std::alloc::Global;

/// Notes what a process reads and writes.
fn watch_process(watches: &mut [Watch], uses: &Uses, process: u32)
    requires { AreWithin (length watches.old) uses.now }
    ensures { HasWatched watches.old watches.new uses.now process }
{
    watch_read(watches, uses.reads.as_slice(), process);
    watch_written(watches, uses.sets.as_slice(), process);
    watch_written(watches, uses.defers.as_slice(), process);
}

/// Which processes see each variable, of those that aren't initial.
fn watch_all(alloc: Global, design: &Design, uses: &[Uses]) -> Result<Vec<Watch>, NoMemory>
    requires valid { IsValidDesign design.now }
    requires many { length uses.now ≡ length design.now.processes }
    requires uses { (p : ℕ) → p < length design.now.processes → AreUsesOf design.now p (slice_index_or uses.now p no_uses) }
    ensures { IfOk result (λ w. AreWatched design.now (length design.now.processes) w.items) }
{
    let processes = design.processes.as_slice();
    let mut watches = vec![in alloc; Watch::Nobody; design.vars.len()]?;
    for at in 0..processes.len() {
        if lasts(processes[at].kind) {
            watch_process(watches.as_mut_slice(), &uses[at], at as u32);
        }
    }
    Ok(watches)
}

/// For each variable whether it is an output.
fn output_flags(alloc: Global, outputs: &[u32], vars: usize) -> Result<Vec<bool>, NoMemory>
    requires { All (λ v. v < vars) outputs.now }
    ensures many { IfOk result (λ flags. length flags.items ≡ vars) }
    ensures flags { IfOk result (λ flags. (v : ℕ) → slice_index_or flags.items v false ≡ list_any (λ o. o == v) outputs.now) }
{
    let mut flags = vec![in alloc; false; vars]?;
    for var in outputs {
        flags[*var as usize] = true;
    }
    Ok(flags)
}

/// The least variable of spans that is an output or that another process sees.
fn least_seen(spans: &[Span], watches: &[Watch], outputs: &[bool], process: u32) -> Option<u32>
    requires watches { All (λ s. s.var < length watches.now) spans.now }
    requires outputs { All (λ s. s.var < length outputs.now) spans.now }
    ensures { IsLeastOf (λ v. IsTrue (has_var spans.now v && is_seen watches.now outputs.now process v)) result }
{
    let mut least = None;
    for span in spans {
        if outputs[span.var as usize] || by_other(watches[span.var as usize], process) {
            least = lesser(least, Some(span.var));
        }
    }
    least
}

/// The least variable that a process of this kind may not write at once.
fn least_shared(
    kind: ProcessKind,
    uses: &Uses,
    watches: &[Watch],
    outputs: &[bool],
    process: u32,
) -> Option<u32>
    requires watches { AreWithin (length watches.now) uses.now }
    requires outputs { AreWithin (length outputs.now) uses.now }
    ensures { IsLeastOf (IsSeenIn kind uses.now watches.now outputs.now process) result }
{
    match kind {
        ProcessKind::Clocked => {
            return least_seen(uses.sets.as_slice(), watches, outputs, process);
        }
        _ => return None,
    }
}

/// The first clocked process that writes a variable at once which is an output or which another process sees, with the
/// least such variable.
pub fn not_private(alloc: Global, design: &Design, uses: &[Uses]) -> Result<Option<Place>, NoMemory>
    requires valid { IsValidDesign design.now }
    requires many { length uses.now ≡ length design.now.processes }
    requires uses { (p : ℕ) → p < length design.now.processes → AreUsesOf design.now p (slice_index_or uses.now p no_uses) }
    ensures { IfOk result (IsFirst IsNotPrivate design.now) }
{
    let processes = design.processes.as_slice();
    let watches = watch_all(alloc, design, uses)?;
    let outputs = output_flags(alloc, design.outputs.as_slice(), design.vars.len())?;
    for at in 0..processes.len() {
        let process = at as u32;
        let kind = processes[at].kind;
        match least_shared(
            kind,
            &uses[at],
            watches.as_slice(),
            outputs.as_slice(),
            process,
        ) {
            Some(var) => return Ok(Some(Place { process, var })),
            None => {}
        }
    }
    Ok(None)
}
