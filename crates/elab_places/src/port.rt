ghost use Rattle.std.specs.Prelude.{◌≡◌, List, ◌∷◌, [], false};
ghost use Rattle.vlog_tree.specs.declared.module.Module.{Module};
ghost use Rattle.vlog_tree.specs.Trees.{option_list};
ghost use Rattle.scope_meaning.specs.Constants as constants;
ghost use Rattle.scope_meaning.specs.Scope.{Here, At, frames};
ghost use Rattle.scope_meaning.specs.Standing.{standing_port};
ghost use Rattle.scope_meaning.specs.ScopeRules.{refuses, refusal_at, duplicate};
ghost use Rattle.elab_names.specs.Frames.{AreFrames};
ghost use Rattle.elab_faults.specs.Flaws.{Finds, vector_flaws};
ghost use Rattle.elab_faults.specs.Judged.{Judges, Nothing};

use crate::judged::at_place;
use elab_constants::Names;
use elab_faults::vector_flaw;
use elab_names::{ScopeNames, VisibleNames};
use elab_ranges::RangeFault;
use elab_types::ElabFault;
use std::alloc::Global;
use vlog_tree::{Port, RangeExpr, Shared};

/// What is wrong with the range of a port, if it has one.
fn port_flaws<N: Names>(
    alloc: Global,
    names: &N,
    range: &Option<Shared<RangeExpr>>,
) -> Result<(), RangeFault>
    ensures { (known : constants.Names) → N.environment names.now ≡ constants.constants known
        → Finds Nothing (vector_flaws known (option_list range.now)) result }
{
    match range {
        Some(range) => vector_flaw(alloc, names, range.get()),
        None => Ok(()),
    }
}

/// Why a port is refused, whose name stands nowhere before in its scope.
pub fn judge_port(alloc: Global, names: &[ScopeNames], port: &Port) -> Result<(), ElabFault>
    ensures { (design : List Module) (here : Here) (at : At) → AreFrames (frames here at) names.now
        → refuses design (standing_port here at port.now) duplicate ≡ false
        → Judges Nothing (refusal_at design (standing_port here at port.now)) result }
{
    let visible = VisibleNames::new(names);
    at_place(port.place, port_flaws(alloc, &visible, &port.range))
}
