ghost use Rattle.std.specs.Prelude.{◌≡◌, ◌+◌, [], ◌∷◌, IfOk, flat_map, map, length};
ghost use Rattle.counted_circuit.specs.Sorts.{has_steps, no_match, sorts};
ghost use Rattle.counted_circuit.specs.Tells.{tells, arm_telling, arms_of, arms_of_arms, forks_in_turn, forks_of_arm, forks_of_arms};
ghost use Rattle.arm_rows.specs.Rows.{Adds, MayHold, sorts_of_arm};

use crate::row::ArmRow;
use cov_types::{NoMemory, Rows};
use design_tree::{Step, StepArm};

/// Puts the arms in a step behind those that are there.
#[cycle(arms)]
fn put_step(step: &Step, around: usize, rows: &mut Rows<ArmRow>) -> Result<(), NoMemory>
    requires { MayHold rows.old around }
    ensures { IfOk result (λ _. Adds (tells step.now).arms (sorts step.now) ((tells step.now).forks around (length rows.old)) rows.old rows.new) }
{
    match step {
        Step::If { test: _, yes, no } => {
            let yes_arm = rows.len();
            rows.push(ArmRow::Yes)?;
            put_steps(yes.as_slice(), yes_arm, rows)?;
            let no_arm = rows.len();
            rows.push(ArmRow::No {
                around,
                yes: yes_arm,
            })?;
            put_steps(no.as_slice(), no_arm, rows)?;
            return Ok(());
        }
        Step::Case { on: _, arms, rest } => {
            put_arms(arms.as_slice(), rows)?;
            put_rest(rest.as_slice(), rows)?;
            return Ok(());
        }
        Step::Set {
            targets: _,
            value: _,
        } => return Ok(()),
        Step::Later {
            targets: _,
            value: _,
        } => return Ok(()),
        Step::Show { pieces: _ } => return Ok(()),
        Step::Finish => return Ok(()),
        Step::Stop => return Ok(()),
        Step::Count { counter: _ } => return Ok(()),
    }
}

/// The same of the block for no match of a `case`, itself first.
#[cycle(arms)]
fn put_rest(steps: &[Step], rows: &mut Rows<ArmRow>) -> Result<(), NoMemory>
    ensures { IfOk result (λ _. Adds (1 + arms_of (map tells steps.now)) (no_match (has_steps (map sorts steps.now)) ∷ flat_map sorts steps.now)
        (forks_of_arm (map tells steps.now) (length rows.old)) rows.old rows.new) }
{
    let arm = rows.len();
    if steps.is_empty() {
        rows.push(ArmRow::NoMatch { written: false })?;
        return Ok(());
    }
    rows.push(ArmRow::NoMatch { written: true })?;
    put_steps(steps, arm, rows)?;
    Ok(())
}

/// The same of an arm of a `case`, itself first.
#[cycle(arms)]
fn put_arm(arm: &StepArm, rows: &mut Rows<ArmRow>) -> Result<(), NoMemory>
    ensures { IfOk result (λ _. Adds (1 + arms_of (arm_telling arm.now).body) (sorts_of_arm arm.now)
        (forks_of_arm (arm_telling arm.now).body (length rows.old)) rows.old rows.new) }
{
    let number = rows.len();
    rows.push(ArmRow::Listed)?;
    put_steps(arm.body.as_slice(), number, rows)?;
    Ok(())
}

/// The same of the arms of a `case`, but for its block for no match.
#[cycle(arms)]
fn put_arms(arms: &[StepArm], rows: &mut Rows<ArmRow>) -> Result<(), NoMemory>
    ensures { IfOk result (λ _. Adds (arms_of_arms (map arm_telling arms.now)) (flat_map sorts_of_arm arms.now)
        (forks_of_arms (map arm_telling arms.now) [] (length rows.old)) rows.old rows.new) }
{
    for arm in arms {
        put_arm(arm, rows)?;
    }
    Ok(())
}

/// The same of steps one after the other, in the arm with this number. It goes as deep as their blocks.
#[cycle(arms)]
pub(crate) fn put_steps(
    steps: &[Step],
    around: usize,
    rows: &mut Rows<ArmRow>,
) -> Result<(), NoMemory>
    requires { MayHold rows.old around }
    ensures { IfOk result (λ _. Adds (arms_of (map tells steps.now)) (flat_map sorts steps.now)
        (forks_in_turn (map tells steps.now) around (length rows.old)) rows.old rows.new) }
{
    for step in steps {
        put_step(step, around, rows)?;
    }
    Ok(())
}
