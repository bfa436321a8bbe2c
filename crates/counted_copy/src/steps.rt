ghost use Rattle.std.specs.Prelude.{◌≡◌, ◌+◌, ◌<◌, ◌≤◌, ◌^◌, IfOk, length, map, true};
ghost use Rattle.std.specs.List.{list_all};
ghost use Rattle.counted_circuit.specs.Inserted.{counts, ArmsAreCounted};
ghost use Rattle.counted_circuit.specs.Plain.{as_list};
ghost use Rattle.counted_circuit.specs.Tells.{tells, arm_telling, arms_of, arms_of_arms};
ghost use Rattle.counted_copy.specs.Carried.{carried_by};
ghost use Rattle.counted_copy.specs.Blocks.{is_uncounted, is_uncounted_arm, IsCountedStep, IsCountedArm, IsCountedBlock};

use cov_types::NoMemory;
use design_copies::{copy_expression, copy_items, copy_pieces, copy_targets};
use design_tree::{Step, StepArm};
use sqlite_items::Items;
use std::alloc::Global;

/// A step with counts, and the number of the arm after its last.
#[derive(Drop)]
pub(crate) struct CountedStep {
    pub(crate) step: Step,
    pub(crate) next: usize,
}

/// An arm of a `case` with counts, and the number of the arm after its last.
#[derive(Drop)]
struct CountedArm {
    arm: StepArm,
    next: usize,
}

/// The arms of a `case` with counts, and the number of the arm after their last.
#[derive(Drop)]
struct CountedArms {
    arms: Items<StepArm>,
    next: usize,
}

/// The block of an arm with counts, and the number of the arm after its last.
#[derive(Drop)]
pub(crate) struct CountedBlock {
    pub(crate) steps: Items<Step>,
    pub(crate) next: usize,
}

/// The counter of an arm, if it carries one.
fn counter_of(carriers: &[Option<u32>], arm: usize) -> Option<u32>
    requires { arm < length carriers.now }
    ensures counter { carried_by carriers.now arm ≡ as_list result }
    ensures few { length carriers.now < 2 ^ 64 }
{
    let _arms = carriers.len();
    carriers[arm]
}

/// The counts of what an arm carries.
pub(crate) fn counts_of(
    alloc: Global,
    carriers: &[Option<u32>],
    arm: usize,
) -> Result<Items<Step>, NoMemory>
    requires { arm < length carriers.now }
    ensures counted { IfOk result (λ steps. steps ≡ counts (carried_by carriers.now arm)) }
    ensures few { IfOk result (λ steps. length carriers.now < 2 ^ 64) }
{
    let mut steps = Items::new(alloc);
    if let Some(counter) = counter_of(carriers, arm) {
        steps.push(Step::Count { counter })?;
    }
    Ok(steps)
}

/// A copy of a step with counts.
#[cycle(counted)]
pub(crate) fn counted_step(
    alloc: Global,
    step: &Step,
    arm: usize,
    carriers: &[Option<u32>],
) -> Result<CountedStep, NoMemory>
    requires uncounted { is_uncounted step.now ≡ true }
    requires room { arm + (tells step.now).arms ≤ length carriers.now }
    ensures { IfOk result (λ r. IsCountedStep (carried_by carriers.now) arm step.now r.step r.next) }
{
    match step {
        Step::Set { targets, value } => {
            let targets = copy_targets(alloc, targets.as_slice())?;
            let value = copy_expression(alloc, value)?;
            let step = Step::Set { targets, value };
            Ok(CountedStep { step, next: arm })
        }
        Step::Later { targets, value } => {
            let targets = copy_targets(alloc, targets.as_slice())?;
            let value = copy_expression(alloc, value)?;
            let step = Step::Later { targets, value };
            Ok(CountedStep { step, next: arm })
        }
        Step::If { test, yes, no } => {
            let test = copy_expression(alloc, test)?;
            let yes = counted_block(alloc, yes.as_slice(), arm, carriers)?;
            let no = counted_block(alloc, no.as_slice(), yes.next, carriers)?;
            let next = no.next;
            let step = Step::If {
                test,
                yes: yes.steps,
                no: no.steps,
            };
            Ok(CountedStep { step, next })
        }
        Step::Case { on, arms, rest } => {
            let on = copy_expression(alloc, on)?;
            let arms = counted_arms(alloc, arms.as_slice(), arm, carriers)?;
            let rest = counted_block(alloc, rest.as_slice(), arms.next, carriers)?;
            let next = rest.next;
            let step = Step::Case {
                on,
                arms: arms.arms,
                rest: rest.steps,
            };
            Ok(CountedStep { step, next })
        }
        Step::Show { pieces } => {
            let pieces = copy_pieces(alloc, pieces.as_slice())?;
            let step = Step::Show { pieces };
            Ok(CountedStep { step, next: arm })
        }
        Step::Finish => Ok(CountedStep {
            step: Step::Finish,
            next: arm,
        }),
        Step::Stop => Ok(CountedStep {
            step: Step::Stop,
            next: arm,
        }),
        Step::Count { counter: _ } => unreachable!(),
    }
}

/// A copy of an arm of a `case` with counts.
#[cycle(counted)]
fn counted_arm(
    alloc: Global,
    arm: &StepArm,
    number: usize,
    carriers: &[Option<u32>],
) -> Result<CountedArm, NoMemory>
    requires uncounted { is_uncounted_arm arm.now ≡ true }
    requires room { number + 1 + arms_of (arm_telling arm.now).body ≤ length carriers.now }
    ensures { IfOk result (λ r. IsCountedArm (carried_by carriers.now) number arm.now r.arm r.next) }
{
    let items = copy_items(alloc, arm.items.as_slice())?;
    let block = counted_block(alloc, arm.body.as_slice(), number, carriers)?;
    let next = block.next;
    let arm = StepArm {
        items,
        body: block.steps,
    };
    Ok(CountedArm { arm, next })
}

/// Copies of the arms of a `case` with counts.
#[cycle(counted)]
fn counted_arms(
    alloc: Global,
    arms: &[StepArm],
    first: usize,
    carriers: &[Option<u32>],
) -> Result<CountedArms, NoMemory>
    requires uncounted { list_all is_uncounted_arm arms.now ≡ true }
    requires room { first + arms_of_arms (map arm_telling arms.now) ≤ length carriers.now }
    ensures { IfOk result (λ r. ArmsAreCounted (carried_by carriers.now) first arms.now r.arms r.next) }
{
    let mut copies = Items::new(alloc);
    let mut next = first;
    for arm in arms {
        let counted = counted_arm(alloc, arm, next, carriers)?;
        next = counted.next;
        copies.push(counted.arm)?;
    }
    Ok(CountedArms { arms: copies, next })
}

/// A copy of the block of an arm, with the counts of what the arm carries at its head. It goes as deep as the blocks in it.
#[cycle(counted)]
pub(crate) fn counted_block(
    alloc: Global,
    steps: &[Step],
    arm: usize,
    carriers: &[Option<u32>],
) -> Result<CountedBlock, NoMemory>
    requires uncounted { list_all is_uncounted steps.now ≡ true }
    requires room { arm + 1 + arms_of (map tells steps.now) ≤ length carriers.now }
    ensures { IfOk result (λ r. IsCountedBlock (carried_by carriers.now) arm steps.now r.steps r.next) }
{
    let mut copies = counts_of(alloc, carriers, arm)?;
    let mut next = arm + 1;
    for step in steps {
        let counted = counted_step(alloc, step, next, carriers)?;
        next = counted.next;
        copies.push(counted.step)?;
    }
    Ok(CountedBlock {
        steps: copies,
        next,
    })
}
