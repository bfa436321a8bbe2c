ghost use Rattle.std.specs.Prelude.{◌≡◌, ◌≤◌, ◌<◌, ◌∷◌, [], ℕ, List, length, map, slice_index_or};
ghost use Rattle.std.specs.List.{list_any};
ghost use Rattle.circuit_run.specs.Outcomes.{Act};
ghost use Rattle.design_meaning.specs.Steps as steps;
ghost use Rattle.design_meaning.specs.Steps.{does, all_do, arm_acts, is_match};
ghost use Rattle.design_tree.specs.declared.step.StepArm.{StepArm};
ghost use Rattle.flat_design.specs.Effects.{added};
ghost use Rattle.design_state.specs.InDesign.{IsTypedIn};
ghost use Rattle.flat_design.specs.InDesign.{CanRun, AreItemsIn, AreArmsIn};

use crate::branch::is_zero;
use crate::effects::Effects;
use design_state::{State, value};
use design_tree::{Step, StepArm, StepItem};

/// Whether an item matches a number: they are equal at the ones of its mask.
fn matches_item(item: &StepItem, number: u128, state: &State) -> bool
    requires { IsTypedIn state.now item.now.value }
    ensures { result ≡ is_match state.now number item.now }
{
    number & item.mask == value(&item.value, state).bits & item.mask
}

/// Whether one of the items matches.
fn matches_any(items: &[StepItem], number: u128, state: &State) -> bool
    requires { AreItemsIn state.now items.now }
    ensures { result ≡ list_any (is_match state.now number) items.now }
{
    for item in items {
        if matches_item(item, number, state) {
            return true;
        }
    }
    false
}

/// The first arm with an item that matches, or the number of arms.
fn chosen_arm(arms: &[StepArm], number: u128, state: &State) -> usize
    requires { AreArmsIn state.now arms.now }
    ensures within { result ≤ length arms.now }
    ensures found { result < length arms.now → (none : StepArm) (rest : List (Act ℕ))
        → steps.chosen state.now number (map arm_acts arms.now) rest ≡ map does (slice_index_or arms.now result none).body }
    ensures none { result ≡ length arms.now → (rest : List (Act ℕ)) → steps.chosen state.now number (map arm_acts arms.now) rest ≡ rest }
{
    for (at, arm) in arms.iter().enumerate() {
        if matches_any(arm.items.as_slice(), number, state) {
            return at;
        }
    }
    arms.len()
}

/// Runs one step.
#[cycle(run)]
fn run_step(step: &Step, state: &mut State, effects: &mut Effects)
    requires { CanRun state.old effects.old (step.now ∷ []) }
    ensures state { state.new ≡ (does step.now state.old).state }
    ensures effects { effects.new ≡ added effects.old (does step.now state.old) }
{
    match step {
        Step::Set {
            targets,
            value: from,
        } => {
            let bits = value(from, state);
            effects.set(targets.as_slice(), bits, state);
            return;
        }
        Step::Later {
            targets,
            value: from,
        } => {
            let bits = value(from, state);
            effects.later(targets.as_slice(), bits, state);
            return;
        }
        Step::If { test, yes, no } => {
            if is_zero(test, state) {
                run_steps(no.as_slice(), state, effects);
                return;
            }
            run_steps(yes.as_slice(), state, effects);
            return;
        }
        Step::Case { on, arms, rest } => {
            let on = value(on, state).bits;
            let at = chosen_arm(arms.as_slice(), on, state);
            if at < arms.len() {
                run_steps(arms.as_slice()[at].body.as_slice(), state, effects);
                return;
            }
            run_steps(rest.as_slice(), state, effects);
            return;
        }
        Step::Show { pieces } => {
            effects.show(pieces.as_slice(), state);
            return;
        }
        Step::Finish => {
            effects.finish();
            return;
        }
        Step::Stop => {
            effects.stop();
            return;
        }
        Step::Count { counter } => {
            effects.raise(*counter);
            return;
        }
    }
}

/// Runs steps one after the other.
#[cycle(run)]
pub(crate) fn run_steps(steps: &[Step], state: &mut State, effects: &mut Effects)
    requires { CanRun state.old effects.old steps.now }
    ensures state { state.new ≡ (all_do steps.now state.old).state }
    ensures effects { effects.new ≡ added effects.old (all_do steps.now state.old) }
{
    for step in steps {
        run_step(step, state, effects);
    }
}
