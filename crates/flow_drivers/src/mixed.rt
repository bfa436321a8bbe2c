ghost use Rattle.std.specs.Prelude.{◌≡◌, ℕ, ◌<◌, All, false, length, slice_index_or, IfOk};
ghost use Rattle.design_meaning.specs.Valid.{IsValidDesign};
ghost use Rattle.design_meaning.specs.Flow.{IsMixed};
ghost use Rattle.flow_least.specs.First.{IsFirst};
ghost use Rattle.flow_least.specs.Least.{IsLeastOf};
ghost use Rattle.flow_uses.specs.Uses.{AreUsesOf, no_uses};
ghost use Rattle.flow_drivers.specs.Flags.{IsMixedIn, AreClear, AreWithin};

use crate::flags::{flag, least_flagged, least_var};
use cov_types::{NoMemory, ProcessKind};
use design_tree::Design;
use flow_least::Place;
use flow_uses::Uses;
use std::alloc::Global;

/// The least variable that a process of this kind may not assign as it does. No flag is set, before and after.
fn least_mixed(kind: ProcessKind, uses: &Uses, flags: &mut [bool]) -> Option<u32>
    requires clear { AreClear flags.old }
    requires within { AreWithin (length flags.old) uses.now }
    ensures clear { AreClear flags.new }
    ensures least { IsLeastOf (IsMixedIn kind uses.now) result }
{
    match kind {
        ProcessKind::Comb => return least_var(uses.defers.as_slice()),
        ProcessKind::Clocked => {
            flag(flags, uses.sets.as_slice(), true);
            let least = least_flagged(flags, uses.defers.as_slice());
            flag(flags, uses.sets.as_slice(), false);
            return least;
        }
        _ => return None,
    }
}

/// The first process that assigns a variable as it may not, with the least such variable: a combinational one later, or a
/// clocked one both at once and later.
pub fn mixed_driver(
    alloc: Global,
    design: &Design,
    uses: &[Uses],
) -> Result<Option<Place>, NoMemory>
    requires valid { IsValidDesign design.now }
    requires many { length uses.now ≡ length design.now.processes }
    requires uses { (p : ℕ) → p < length design.now.processes → AreUsesOf design.now p (slice_index_or uses.now p no_uses) }
    ensures { IfOk result (IsFirst IsMixed design.now) }
{
    let processes = design.processes.as_slice();
    let mut flags = vec![in alloc; false; design.vars.len()]?;
    for at in 0..processes.len() {
        match least_mixed(processes[at].kind, &uses[at], flags.as_mut_slice()) {
            Some(var) => {
                let process = at as u32;
                return Ok(Some(Place { process, var }));
            }
            None => {}
        }
    }
    Ok(None)
}
