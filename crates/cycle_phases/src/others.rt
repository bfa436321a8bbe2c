ghost use Rattle.std.specs.Prelude.{◌≡◌, IfOk, not};
ghost use Rattle.circuit_run.specs.Kinds.{is_assign};
ghost use Rattle.cycle_phases.specs.Others.{AreOthers};

use cov_types::{NoMemory, ProcessKind};
use flat_design::Design;
use place_marks::PlaceMarks;
use std::alloc::Global;

/// Whether a process of this kind is no assignment.
fn is_other(kind: ProcessKind) -> bool
    ensures { result ≡ not (is_assign kind) }
{
    !matches!(kind, ProcessKind::Assign)
}

/// Marks the processes that are no assignments, by their numbers. They are few in most designs, so that who looks for them
/// needn't go over all.
pub fn mark_others(alloc: Global, design: &Design) -> Result<PlaceMarks, NoMemory>
    ensures { IfOk result (λ marks. AreOthers design.now marks) }
{
    let processes = design.processes.as_slice();
    let mut marks = PlaceMarks::new(alloc, processes.len())?;
    for at in 0..processes.len() {
        if is_other(processes[at].kind) {
            marks.mark(at);
        }
    }
    Ok(marks)
}
