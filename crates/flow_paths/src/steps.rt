ghost use Rattle.std.specs.Prelude.{◌≡◌, ◌||◌, ◌&&◌, IfOk};
ghost use Rattle.std.specs.List.{list_any, list_all};
ghost use Rattle.flow_marks.specs.Takes.{AreIn, is_listed};
ghost use Rattle.flow_spans.specs.Reads.{AreKnown};
ghost use Rattle.flow_uses.specs.Gathers.{IsStepIn, AreStepsIn, AreArmsIn, IsArmIn};
ghost use Rattle.flow_paths.specs.Walking.{IsReady, Passes, Branches, ArmBranches, always_step, early_step, always_steps, early_steps};

use crate::branches::{common, put_back, take_all};
use crate::reads::{read_arms, read_assignment, read_expression, read_pieces};
use crate::targets::take_targets;
use crate::walk::Walk;
use cov_types::{NoMemory, Var};
use design_state::State;
use design_tree::{Step, StepArm};
use flow_marks::Spot;
use std::alloc::Global;

/// Walks over a step: notes what it reads, and takes what it surely writes.
#[cycle(walk)]
fn walk_step(
    alloc: Global,
    step: &Step,
    vars: &[Var],
    state: &State,
    walk: &mut Walk,
) -> Result<(), NoMemory>
    requires known { AreKnown vars.now state.now }
    requires step { IsStepIn state.now step.now }
    requires ready { IsReady vars.now walk.old }
    ensures { IfOk result (λ _. Passes walk.old walk.new (always_step step.now) (early_step step.now)) }
{
    match step {
        Step::Set { targets, value } => {
            read_assignment(alloc, targets.as_slice(), value, vars, state, walk)?;
            take_targets(alloc, targets.as_slice(), vars, state, walk)?;
            return Ok(());
        }
        Step::Later { targets, value } => {
            read_assignment(alloc, targets.as_slice(), value, vars, state, walk)?;
            return Ok(());
        }
        Step::If { test, yes, no } => {
            read_expression(alloc, test, vars, state, walk)?;
            let one = taken_in(alloc, yes.as_slice(), vars, state, walk)?;
            let other = taken_in(alloc, no.as_slice(), vars, state, walk)?;
            let both = common(alloc, one.as_slice(), other.as_slice(), &mut walk.spare)?;
            take_all(walk, both.as_slice())?;
            return Ok(());
        }
        Step::Case { on, arms, rest } => {
            read_expression(alloc, on, vars, state, walk)?;
            read_arms(alloc, arms.as_slice(), vars, state, walk)?;
            let first = taken_in(alloc, rest.as_slice(), vars, state, walk)?;
            let all = taken_in_arms(alloc, arms.as_slice(), vars, state, walk, first)?;
            take_all(walk, all.as_slice())?;
            return Ok(());
        }
        Step::Show { pieces } => {
            read_pieces(alloc, pieces.as_slice(), vars, state, walk)?;
            return Ok(());
        }
        Step::Finish => return Ok(()),
        Step::Stop => return Ok(()),
        Step::Count { counter: _ } => return Ok(()),
    }
}

/// Walks over the block of an arm, and gives what it surely writes of what is left.
#[cycle(walk)]
fn taken_in_arm(
    alloc: Global,
    arm: &StepArm,
    vars: &[Var],
    state: &State,
    walk: &mut Walk,
) -> Result<Vec<Spot>, NoMemory>
    requires known { AreKnown vars.now state.now }
    requires arm { IsArmIn state.now arm.now }
    requires ready { IsReady vars.now walk.old }
    ensures { IfOk result (λ taken. Branches walk.old walk.new taken.items (always_steps arm.now.body) (early_steps arm.now.body)) }
{
    taken_in(alloc, arm.body.as_slice(), vars, state, walk)
}

/// Walks over the blocks of all arms, and gives those of the bits that each of them surely writes.
#[cycle(walk)]
fn taken_in_arms(
    alloc: Global,
    arms: &[StepArm],
    vars: &[Var],
    state: &State,
    walk: &mut Walk,
    first: Vec<Spot>,
) -> Result<Vec<Spot>, NoMemory>
    requires known { AreKnown vars.now state.now }
    requires arms { AreArmsIn state.now arms.now }
    requires ready { IsReady vars.now walk.old }
    requires first { AreIn walk.old.left.slots first.items }
    ensures { IfOk result (λ taken. ArmBranches walk.old walk.new first.items taken.items (λ b. list_all (λ arm. always_steps arm.body b) arms.now)
        (λ b. list_any (λ arm. early_steps arm.body b) arms.now)) }
{
    let mut all = first;
    for arm in arms {
        let taken = taken_in_arm(alloc, arm, vars, state, walk)?;
        all = common(alloc, all.as_slice(), taken.as_slice(), &mut walk.spare)?;
    }
    Ok(all)
}

/// Walks over steps one after the other, and gives what they surely write of what is left. It is left again.
#[cycle(walk)]
pub(crate) fn taken_in(
    alloc: Global,
    steps: &[Step],
    vars: &[Var],
    state: &State,
    walk: &mut Walk,
) -> Result<Vec<Spot>, NoMemory>
    requires known { AreKnown vars.now state.now }
    requires steps { AreStepsIn state.now steps.now }
    requires ready { IsReady vars.now walk.old }
    ensures { IfOk result (λ taken. Branches walk.old walk.new taken.items (always_steps steps.now) (early_steps steps.now)) }
{
    let from = walk.trail.len();
    for step in steps {
        walk_step(alloc, step, vars, state, walk)?;
    }
    put_back(alloc, walk, from)
}
