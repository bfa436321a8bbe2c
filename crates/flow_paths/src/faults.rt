ghost use Rattle.std.specs.Prelude.{◌≡◌, ℕ, ◌<◌, length, slice_index_or, IfOk, IfNone, IfSome};
ghost use Rattle.design_meaning.specs.Valid.{IsValidDesign};
ghost use Rattle.flow_spans.specs.Reads.{AreKnown};
ghost use Rattle.flow_uses.specs.Gathers.{AreStepsIn};
ghost use Rattle.flow_uses.specs.Uses.{AreUsesOf, no_uses};
ghost use Rattle.flow_marks.specs.Slots.{AreFew};
ghost use Rattle.flow_least.specs.Met.{AreMarked};
ghost use Rattle.flow_paths.specs.Faults.{IsFresh, IsWalked, KeepsPaths, IsPathFault, first_of};

use crate::branches::take_all;
use crate::steps::taken_in;
use crate::walk::Walk;
use cov_types::{NoMemory, ProcessKind, Var};
use design_state::State;
use design_tree::{Design, Step};
use flow_least::{Place, insert_driven, least_driven, settles};
use flow_marks::Marks;
use flow_uses::Uses;
use std::alloc::Global;

/// A condition on paths that fails, with the process and the variable for which it does.
#[derive(Clone, Copy, Debug, PartialEq, Eq)]
pub enum PathFault {
    Latch { process: u32, var: u32 },
    ReadBeforeWrite { process: u32, var: u32 },
}

/// Nothing is left, and nothing was read.
fn fresh_walk(alloc: Global, vars: &[Var]) -> Result<Walk, NoMemory>
    requires { AreFew vars.now }
    ensures { IfOk result (IsFresh vars.now) }
{
    let left = Marks::new(alloc, vars)?;
    let spare = Marks::new(alloc, vars)?;
    Ok(Walk {
        left,
        spare,
        trail: Vec::new(alloc),
        early: None,
    })
}

/// Walks over a process: the least variable of a bit that it drives and leaves unwritten on some path.
fn walk_process(
    alloc: Global,
    uses: &Uses,
    body: &[Step],
    vars: &[Var],
    state: &State,
    walk: &mut Walk,
) -> Result<Option<u32>, NoMemory>
    requires known { AreKnown vars.now state.now }
    requires body { AreStepsIn state.now body.now }
    requires fresh { IsFresh vars.now walk.old }
    requires marked { AreMarked walk.old.left.slots uses.now }
    ensures { IfOk result (IsWalked vars.now uses.now body.now walk.new) }
{
    insert_driven(&mut walk.left, uses, true);
    walk.early = None;
    let taken = taken_in(alloc, body, vars, state, walk)?;
    take_all(walk, taken.as_slice())?;
    walk.trail.clear();
    Ok(least_driven(&walk.left, uses))
}

/// The place that was found before; else that of this process, if it is combinational and a variable was found.
fn first_place(
    early: Option<Place>,
    kind: ProcessKind,
    process: u32,
    found: Option<u32>,
) -> Option<Place>
    ensures { result ≡ first_of early kind process found }
{
    match early {
        Some(_) => early,
        None => match kind {
            ProcessKind::Comb => match found {
                None => None,
                Some(var) => Some(Place { process, var }),
            },
            _ => None,
        },
    }
}

/// The first process that may keep an old value, with the least such variable; where there is none, the first
/// combinational one that reads what it drives before it writes it.
pub fn path_fault(
    alloc: Global,
    design: &Design,
    uses: &[Uses],
) -> Result<Option<PathFault>, NoMemory>
    requires valid { IsValidDesign design.now }
    requires many { length uses.now ≡ length design.now.processes }
    requires uses { (p : ℕ) → p < length design.now.processes → AreUsesOf design.now p (slice_index_or uses.now p no_uses) }
    ensures kept { IfOk result (λ f. IfNone f (KeepsPaths design.now)) }
    ensures fault { IfOk result (λ f. IfSome f (IsPathFault design.now)) }
{
    let vars = design.vars.as_slice();
    let state = State::new(alloc, design)?;
    let mut walk = fresh_walk(alloc, vars)?;
    let mut early = None;
    let processes = design.processes.as_slice();
    for at in 0..processes.len() {
        let kind = processes[at].kind;
        let process = at as u32;
        if settles(kind) {
            let body = processes[at].body.as_slice();
            match walk_process(alloc, &uses[at], body, vars, &state, &mut walk)? {
                Some(var) => return Ok(Some(PathFault::Latch { process, var })),
                None => early = first_place(early, kind, process, walk.early),
            }
        }
    }
    match early {
        None => Ok(None),
        Some(at) => {
            let process = at.process;
            let var = at.var;
            Ok(Some(PathFault::ReadBeforeWrite { process, var }))
        }
    }
}
