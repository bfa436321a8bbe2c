ghost use Rattle.std.specs.Prelude.{IfOk, ◌||◌};
ghost use Rattle.std.specs.List.{list_any};
ghost use Rattle.flow_spans.specs.Reads.{AreKnown};
ghost use Rattle.flow_uses.specs.Walks.{some_in, some_in_all, arm_has};
ghost use Rattle.flow_uses.specs.Gathers.{Gathers, IsStepIn, AreStepsIn, AreArmsIn, IsArmIn};

use crate::lists::{Lists, add_items, add_pieces, add_targets};
use cov_types::{NoMemory, Var};
use design_state::State;
use design_tree::{Step, StepArm};
use flow_spans::expression_reads;

/// Puts what a step reads and writes behind what is there.
#[cycle(gather)]
fn gather_step(step: &Step, vars: &[Var], state: &State, lists: &mut Lists) -> Result<(), NoMemory>
    requires known { AreKnown vars.now state.now }
    requires step { IsStepIn state.now step.now }
    ensures { IfOk result (λ _. Gathers vars.now lists.old lists.new (λ test. some_in test step.now)) }
{
    match step {
        Step::Set { targets, value } => {
            expression_reads(value, vars, state, &mut lists.reads)?;
            add_targets(
                targets.as_slice(),
                vars,
                state,
                &mut lists.reads,
                &mut lists.sets,
            )?;
            return Ok(());
        }
        Step::Later { targets, value } => {
            expression_reads(value, vars, state, &mut lists.reads)?;
            add_targets(
                targets.as_slice(),
                vars,
                state,
                &mut lists.reads,
                &mut lists.defers,
            )?;
            return Ok(());
        }
        Step::If { test, yes, no } => {
            expression_reads(test, vars, state, &mut lists.reads)?;
            gather_steps(yes.as_slice(), vars, state, lists)?;
            gather_steps(no.as_slice(), vars, state, lists)?;
            return Ok(());
        }
        Step::Case { on, arms, rest } => {
            expression_reads(on, vars, state, &mut lists.reads)?;
            gather_arms(arms.as_slice(), vars, state, lists)?;
            gather_steps(rest.as_slice(), vars, state, lists)?;
            return Ok(());
        }
        Step::Show { pieces } => {
            add_pieces(pieces.as_slice(), vars, state, &mut lists.reads)?;
            return Ok(());
        }
        Step::Finish => return Ok(()),
        Step::Stop => return Ok(()),
        Step::Count { counter: _ } => return Ok(()),
    }
}

/// The same of an arm: what its items read, and its block.
#[cycle(gather)]
fn gather_arm(arm: &StepArm, vars: &[Var], state: &State, lists: &mut Lists) -> Result<(), NoMemory>
    requires known { AreKnown vars.now state.now }
    requires arm { IsArmIn state.now arm.now }
    ensures { IfOk result (λ _. Gathers vars.now lists.old lists.new (λ test. arm_has test arm.now)) }
{
    add_items(arm.items.as_slice(), vars, state, &mut lists.reads)?;
    gather_steps(arm.body.as_slice(), vars, state, lists)?;
    Ok(())
}

/// The same of several arms.
#[cycle(gather)]
fn gather_arms(
    arms: &[StepArm],
    vars: &[Var],
    state: &State,
    lists: &mut Lists,
) -> Result<(), NoMemory>
    requires known { AreKnown vars.now state.now }
    requires arms { AreArmsIn state.now arms.now }
    ensures { IfOk result (λ _. Gathers vars.now lists.old lists.new (λ test. list_any (arm_has test) arms.now)) }
{
    for arm in arms {
        gather_arm(arm, vars, state, lists)?;
    }
    Ok(())
}

/// The same of steps one after the other.
#[cycle(gather)]
pub(crate) fn gather_steps(
    steps: &[Step],
    vars: &[Var],
    state: &State,
    lists: &mut Lists,
) -> Result<(), NoMemory>
    requires known { AreKnown vars.now state.now }
    requires steps { AreStepsIn state.now steps.now }
    ensures { IfOk result (λ _. Gathers vars.now lists.old lists.new (λ test. list_any (some_in test) steps.now)) }
{
    for step in steps {
        gather_step(step, vars, state, lists)?;
    }
    Ok(())
}
