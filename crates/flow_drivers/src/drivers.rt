ghost use Rattle.std.specs.Prelude.{◌≡◌, ℕ, ◌<◌, ◌||◌, ◌&&◌, length, slice_index_or, IfOk};
ghost use Rattle.design_meaning.specs.Valid.{IsValidDesign};
ghost use Rattle.design_meaning.specs.Flow.{HasTwoDrivers};
ghost use Rattle.flow_marks.specs.Slots.{AreFew};
ghost use Rattle.flow_least.specs.First.{IsFirst};
ghost use Rattle.flow_least.specs.Least.{IsLeastOf};
ghost use Rattle.flow_least.specs.Met.{HasMetEither, AreMarked};
ghost use Rattle.flow_uses.specs.Uses.{AreUsesOf, no_uses};
ghost use Rattle.flow_drivers.specs.Driven as driven;
ghost use Rattle.flow_drivers.specs.Driven.{asked_of, AreTaken, AreNone, HasMarked};

use cov_types::{NoMemory, ProcessKind, Var};
use design_tree::Design;
use flow_least::{Place, insert_driven, least_driven, settles};
use flow_marks::Marks;
use flow_uses::Uses;
use std::alloc::Global;

/// The bits that processes drive, by the kinds of those processes.
#[derive(Drop)]
struct Driven {
    by_any: Marks,
    /// By those that aren't initial.
    by_lasting: Marks,
    by_settling: Marks,
}

/// No bits of these variables.
fn none_driven(alloc: Global, vars: &[Var]) -> Result<Driven, NoMemory>
    requires { AreFew vars.now }
    ensures { IfOk result (AreNone vars.now) }
{
    let by_any = Marks::new(alloc, vars)?;
    let by_lasting = Marks::new(alloc, vars)?;
    let by_settling = Marks::new(alloc, vars)?;
    Ok(Driven {
        by_any,
        by_lasting,
        by_settling,
    })
}

/// The least variable of a bit that a process of this kind drives and that others drive which it may not share it with.
fn least_shared(driven: &Driven, kind: ProcessKind, uses: &Uses) -> Option<u32>
    requires { HasMarked driven.now uses.now }
    ensures { IsLeastOf (HasMetEither (asked_of kind driven.now) uses.now) result }
{
    match kind {
        ProcessKind::Assign => least_driven(&driven.by_any, uses),
        ProcessKind::Comb => least_driven(&driven.by_any, uses),
        ProcessKind::Clocked => least_driven(&driven.by_lasting, uses),
        ProcessKind::Cover => least_driven(&driven.by_lasting, uses),
        ProcessKind::Initial => least_driven(&driven.by_settling, uses),
    }
}

/// Whether a process isn't initial.
pub(crate) fn lasts(kind: ProcessKind) -> bool
    ensures { result ≡ driven.lasts kind }
{
    match kind {
        ProcessKind::Initial => false,
        _ => true,
    }
}

/// Puts the bits that a process of this kind drives to those of others.
fn drive(driven: &mut Driven, kind: ProcessKind, uses: &Uses)
    requires { HasMarked driven.old uses.now }
    ensures { AreTaken driven.old driven.new kind uses.now }
{
    insert_driven(&mut driven.by_any, uses, true);
    insert_driven(&mut driven.by_lasting, uses, lasts(kind));
    insert_driven(&mut driven.by_settling, uses, settles(kind));
}

/// The first process that drives a bit which one before it drives, with the least variable of such a bit.
pub fn two_drivers(alloc: Global, design: &Design, uses: &[Uses]) -> Result<Option<Place>, NoMemory>
    requires valid { IsValidDesign design.now }
    requires many { length uses.now ≡ length design.now.processes }
    requires uses { (p : ℕ) → p < length design.now.processes → AreUsesOf design.now p (slice_index_or uses.now p no_uses) }
    ensures { IfOk result (IsFirst HasTwoDrivers design.now) }
{
    let processes = design.processes.as_slice();
    let mut driven = none_driven(alloc, design.vars.as_slice())?;
    for at in 0..processes.len() {
        let kind = processes[at].kind;
        match least_shared(&driven, kind, &uses[at]) {
            Some(var) => {
                let process = at as u32;
                return Ok(Some(Place { process, var }));
            }
            None => drive(&mut driven, kind, &uses[at]),
        }
    }
    Ok(None)
}
