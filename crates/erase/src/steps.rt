ghost use Rattle.std.specs.Prelude.{◌≡◌, IfOk, option_to_list, flat_map, map};
ghost use Rattle.counted_circuit.specs.Erased.{erased};
ghost use Rattle.erase.specs.Arms.{arm_without_counts};

use cov_types::NoMemory;
use design_copies::{copy_expression, copy_items, copy_pieces, copy_targets};
use design_tree::{Step, StepArm};
use sqlite_items::Items;
use std::alloc::Global;

/// What is left of a step: nothing of a count, and of any other the step with what is left of its blocks.
#[cycle(erase)]
fn step_left(alloc: Global, step: &Step) -> Result<Option<Step>, NoMemory>
    ensures { IfOk result (λ left. erased step.now ≡ option_to_list left) }
{
    match step {
        Step::Set { targets, value } => {
            let targets = copy_targets(alloc, targets.as_slice())?;
            let value = copy_expression(alloc, value)?;
            Ok(Some(Step::Set { targets, value }))
        }
        Step::Later { targets, value } => {
            let targets = copy_targets(alloc, targets.as_slice())?;
            let value = copy_expression(alloc, value)?;
            Ok(Some(Step::Later { targets, value }))
        }
        Step::If { test, yes, no } => {
            let test = copy_expression(alloc, test)?;
            let yes = steps_left(alloc, yes.as_slice())?;
            let no = steps_left(alloc, no.as_slice())?;
            Ok(Some(Step::If { test, yes, no }))
        }
        Step::Case { on, arms, rest } => {
            let on = copy_expression(alloc, on)?;
            let arms = arms_left(alloc, arms.as_slice())?;
            let rest = steps_left(alloc, rest.as_slice())?;
            Ok(Some(Step::Case { on, arms, rest }))
        }
        Step::Show { pieces } => {
            let pieces = copy_pieces(alloc, pieces.as_slice())?;
            Ok(Some(Step::Show { pieces }))
        }
        Step::Finish => Ok(Some(Step::Finish)),
        Step::Stop => Ok(Some(Step::Stop)),
        Step::Count { counter: _ } => Ok(None),
    }
}

/// What is left of an arm of a `case`.
#[cycle(erase)]
fn arm_left(alloc: Global, arm: &StepArm) -> Result<StepArm, NoMemory>
    ensures { IfOk result (λ left. left ≡ arm_without_counts arm.now) }
{
    let items = copy_items(alloc, arm.items.as_slice())?;
    let body = steps_left(alloc, arm.body.as_slice())?;
    Ok(StepArm { items, body })
}

/// What is left of the arms of a `case`.
#[cycle(erase)]
fn arms_left(alloc: Global, arms: &[StepArm]) -> Result<Items<StepArm>, NoMemory>
    ensures { IfOk result (λ left. left ≡ map arm_without_counts arms.now) }
{
    let mut left = Items::new(alloc);
    for arm in arms {
        left.push(arm_left(alloc, arm)?)?;
    }
    Ok(left)
}

/// What is left of steps one after the other. It goes as deep as their blocks.
#[cycle(erase)]
pub(crate) fn steps_left(alloc: Global, steps: &[Step]) -> Result<Items<Step>, NoMemory>
    ensures { IfOk result (λ left. left ≡ flat_map erased steps.now) }
{
    let mut left = Items::new(alloc);
    for step in steps {
        if let Some(step) = step_left(alloc, step)? {
            left.push(step)?;
        }
    }
    Ok(left)
}
