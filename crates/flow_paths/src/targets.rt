ghost use Rattle.std.specs.Prelude.{◌≡◌, IfOk, false};
ghost use Rattle.std.specs.List.{list_any};
ghost use Rattle.design_meaning.specs.Targets.{surely_names};
ghost use Rattle.flow_spans.specs.Aims.{IsTargetIn};
ghost use Rattle.flow_spans.specs.Reads.{AreKnown};
ghost use Rattle.flow_uses.specs.Gathers.{AreTargetsIn};
ghost use Rattle.flow_paths.specs.Walking.{IsReady, Passes};

use crate::walk::Walk;
use cov_types::{NoMemory, Var};
use design_state::State;
use design_tree::Target;
use flow_marks::take_span;
use flow_spans::target_aim;
use std::alloc::Global;

/// Takes the bits that a target surely names out of those that are left.
fn take_target(
    alloc: Global,
    target: &Target,
    vars: &[Var],
    state: &State,
    walk: &mut Walk,
) -> Result<(), NoMemory>
    requires known { AreKnown vars.now state.now }
    requires target { IsTargetIn state.now target.now }
    requires ready { IsReady vars.now walk.old }
    ensures { IfOk result (λ _. Passes walk.old walk.new (λ b. surely_names b target.now) (λ b. false)) }
{
    let mut read = Vec::new(alloc);
    let aim = target_aim(target, vars, state, &mut read)?;
    if aim.fixed {
        take_span(&mut walk.left, aim.span, &mut walk.trail)?;
    }
    Ok(())
}

/// The same of several targets.
pub(crate) fn take_targets(
    alloc: Global,
    targets: &[Target],
    vars: &[Var],
    state: &State,
    walk: &mut Walk,
) -> Result<(), NoMemory>
    requires known { AreKnown vars.now state.now }
    requires targets { AreTargetsIn state.now targets.now }
    requires ready { IsReady vars.now walk.old }
    ensures { IfOk result (λ _. Passes walk.old walk.new (λ b. list_any (surely_names b) targets.now) (λ b. false)) }
{
    for target in targets {
        take_target(alloc, target, vars, state, walk)?;
    }
    Ok(())
}
