//! Blocks, their steps, and arms.

ghost use Rattle.std.specs.Prelude.{◌≡◌, ◌≤◌, ◌^◌, ◌*◌, ◌+◌, All, ℕ, length, true};
ghost use Rattle.cvd_cursor.specs.Reads.{Reads};
ghost use Rattle.cvd_step_laws.proofs.StepParts.{made_step};
ghost use Rattle.cvd_step_laws.specs.StepMarks.{arm_marks, arms_marks, behind_arms, block_marks, chosen_marks, step_marks};
ghost use Rattle.cvd_step_laws.specs.StepMarks.{step_parts, steps_marks, tested_marks, within};
ghost use Rattle.cvd_steps.specs.Bodies.{AreArms, IsArm, IsBody, IsStep, around_of, body_marks, load_of};
ghost use Rattle.cvd_steps.specs.Words.{head_of};
ghost use Rattle.cvd_targets.specs.Lists.{AreTurns};
ghost use Rattle.cvd_text.specs.Lines.{is_within};
ghost use Rattle.cvd_text.specs.Steps.{spot};
ghost use Rattle.design_meaning.specs.ValidVariables.{IsVariable};
ghost use Rattle.design_tree.specs.declared.step.Step.TheVariants as steps;

use crate::border::{arm_line, begin, end};
use crate::item::read_items;
use crate::kept::{Arms, Body, Case, Place, ReadArm, ReadStep};
use crate::line::{case_line, test_line};
use crate::place::{may_go, may_test};
use crate::plain::{count, finish, later, set, show, stop};
use crate::process::Process;
use crate::sums::Sums;
use crate::word::{StepWord, at_end, first_turns, read_word};
use cov_types::Var;
use cvd_cursor::{Cursor, ReadFault};
use cvd_targets::items_for;
use design_tree::{Step, StepArm};
use std::alloc::Global;

/// The block of a process, behind lines that add up to this: `begin`, its steps, `end`.
pub fn read_body(
    alloc: Global,
    cursor: &mut Cursor<'_>,
    vars: &[Var],
    process: Process,
    sums: Sums,
) -> Result<Body, ReadFault>
    requires few { length vars.now ≤ 2 ^ 32 }
    requires variables { All IsVariable vars.now }
    requires sums { is_within (load_of sums) ≡ true }
    ensures { Reads (body_marks (around_of vars.now process) (load_of sums)) (IsBody (around_of vars.now process) (load_of sums) 1) cursor.old result
        cursor.new }
{
    block(alloc, cursor, vars, process, 1, sums)
}

/// A block so deep.
#[cycle(step)]
fn block(
    alloc: Global,
    cursor: &mut Cursor<'_>,
    vars: &[Var],
    process: Process,
    deep: u32,
    sums: Sums,
) -> Result<Body, ReadFault>
    requires few { length vars.now ≤ 2 ^ 32 }
    requires variables { All IsVariable vars.now }
    requires sums { is_within (load_of sums) ≡ true }
    requires deep { deep ≤ 701 }
    ensures { Reads (block_marks (around_of vars.now process) (load_of sums) deep) (IsBody (around_of vars.now process) (load_of sums) deep) cursor.old result
        cursor.new }
{
    begin(cursor, deep, sums)?;
    let body = all_steps(alloc, cursor, vars, process, deep, sums)?;
    Ok(body)
}

/// Steps up to the end of their block.
#[cycle(step)]
fn all_steps(
    alloc: Global,
    cursor: &mut Cursor<'_>,
    vars: &[Var],
    process: Process,
    deep: u32,
    sums: Sums,
) -> Result<Body, ReadFault>
    requires few { length vars.now ≤ 2 ^ 32 }
    requires variables { All IsVariable vars.now }
    requires sums { is_within (load_of sums) ≡ true }
    requires deep { deep ≤ 700 }
    ensures { Reads (steps_marks (around_of vars.now process) deep (within (load_of sums) 0)) (IsBody (around_of vars.now process) (load_of sums) deep)
        cursor.old result cursor.new }
{
    let mut steps = items_for(alloc, first_turns(cursor))?;
    let mut sums = sums;
    'turns: while !at_end(cursor) {
        let place = Place {
            deep,
            before: steps.len(),
        };
        let next = step(alloc, cursor, vars, process, place, sums)?;
        sums = next.sums;
        steps.push(next.step)?;
    }
    end(cursor, process.kind, deep, steps.len(), sums)?;
    Ok(Body { steps, sums })
}

/// A step.
#[cycle(step)]
fn step(
    alloc: Global,
    cursor: &mut Cursor<'_>,
    vars: &[Var],
    process: Process,
    place: Place,
    sums: Sums,
) -> Result<ReadStep, ReadFault>
    requires few { length vars.now ≤ 2 ^ 32 }
    requires variables { All IsVariable vars.now }
    requires sums { is_within (load_of sums) ≡ true }
    requires deep { place.deep ≤ 700 }
    ensures { let at = spot place.deep place.before in Reads (step_marks (around_of vars.now process) (load_of sums) at)
        (IsStep (around_of vars.now process) (load_of sums) at) cursor.old result cursor.new }
{
    let word = read_word(cursor)?;
    let held = parts(alloc, cursor, vars, process, place, sums, word)?;
    Ok(held)
}

/// What follows the first word of a step.
#[cycle(step)]
fn parts(
    alloc: Global,
    cursor: &mut Cursor<'_>,
    vars: &[Var],
    process: Process,
    place: Place,
    sums: Sums,
    word: StepWord,
) -> Result<ReadStep, ReadFault>
    requires few { length vars.now ≤ 2 ^ 32 }
    requires variables { All IsVariable vars.now }
    requires sums { is_within (load_of sums) ≡ true }
    requires deep { place.deep ≤ 700 }
    ensures { let at = spot place.deep place.before in let around = around_of vars.now process in Reads (step_parts around (load_of sums) at (head_of word))
        (λ p held. IsStep around (load_of sums) at (made_step (head_of word, p)) held) cursor.old result cursor.new }
{
    match word {
        StepWord::Set => set(alloc, cursor, vars, process, place, sums),
        StepWord::Later => later(alloc, cursor, vars, process, place, sums),
        StepWord::If => tested(alloc, cursor, vars, process, place, sums),
        StepWord::Case => chosen(alloc, cursor, vars, process, place, sums),
        StepWord::Show => show(alloc, cursor, vars, process, place, sums),
        StepWord::Finish => finish(cursor, vars, process, place, sums),
        StepWord::Stop => stop(cursor, vars, process, place, sums),
        StepWord::Count => count(cursor, vars, process, place, sums),
    }
}

/// What follows the word `if`.
#[cycle(step)]
fn tested(
    alloc: Global,
    cursor: &mut Cursor<'_>,
    vars: &[Var],
    process: Process,
    place: Place,
    sums: Sums,
) -> Result<ReadStep, ReadFault>
    requires few { length vars.now ≤ 2 ^ 32 }
    requires variables { All IsVariable vars.now }
    requires sums { is_within (load_of sums) ≡ true }
    requires deep { place.deep ≤ 700 }
    ensures { let at = spot place.deep place.before in let around = around_of vars.now process in Reads (tested_marks around (load_of sums) at)
        (λ p held. IsStep around (load_of sums) at (steps.If p.0 p.1.1.0 p.1.1.1) held) cursor.old result cursor.new }
{
    let allowed = may_test(process.kind, place.deep, place.before);
    let first = test_line(alloc, cursor, vars, process, allowed, sums)?;
    let yes = block(alloc, cursor, vars, process, place.deep + 1, first.sums)?;
    let no = block(alloc, cursor, vars, process, place.deep + 1, yes.sums)?;
    let sums = no.sums;
    let step = Step::If {
        test: first.test.into_inner(),
        yes: yes.steps,
        no: no.steps,
    };
    Ok(ReadStep { step, sums })
}

/// What follows the word `case`.
#[cycle(step)]
fn chosen(
    alloc: Global,
    cursor: &mut Cursor<'_>,
    vars: &[Var],
    process: Process,
    place: Place,
    sums: Sums,
) -> Result<ReadStep, ReadFault>
    requires few { length vars.now ≤ 2 ^ 32 }
    requires variables { All IsVariable vars.now }
    requires sums { is_within (load_of sums) ≡ true }
    requires deep { place.deep ≤ 700 }
    ensures { let at = spot place.deep place.before in let around = around_of vars.now process in Reads (chosen_marks around (load_of sums) at)
        (λ p held. IsStep around (load_of sums) at (steps.Case p.1.0 p.1.1.1.0.items p.1.1.1.1) held) cursor.old result cursor.new }
{
    let allowed = may_go(process.kind, place.deep, place.before);
    let first = case_line(alloc, cursor, vars, process, allowed, sums)?;
    let each = Case {
        width: first.width,
        turns: first.turns,
        deep: place.deep,
    };
    let arms = all_arms(alloc, cursor, vars, process, each, first.sums)?;
    let rest = block(alloc, cursor, vars, process, place.deep + 1, arms.sums)?;
    let sums = rest.sums;
    let step = Step::Case {
        on: first.on.into_inner(),
        arms: arms.arms,
        rest: rest.steps,
    };
    Ok(ReadStep { step, sums })
}

/// So many arms.
#[cycle(step)]
fn all_arms(
    alloc: Global,
    cursor: &mut Cursor<'_>,
    vars: &[Var],
    process: Process,
    each: Case,
    sums: Sums,
) -> Result<Arms, ReadFault>
    requires few { length vars.now ≤ 2 ^ 32 }
    requires variables { All IsVariable vars.now }
    requires sums { is_within (load_of sums) ≡ true }
    requires deep { each.deep ≤ 700 }
    requires narrow { each.width ≤ 128 }
    ensures { (n bytes : ℕ) → AreTurns bytes n each.turns → length cursor.old.rest ≤ 2 * bytes + 1
        → Reads (arms_marks (around_of vars.now process) each.width each.deep (load_of sums) n)
        (λ m held. AreArms (behind_arms (around_of vars.now process) each.width each.deep (load_of sums) m.items) m.items held) cursor.old result
        cursor.new }
{
    let mut arms = items_for(alloc, each.turns)?;
    let mut sums = sums;
    let mut left = each.turns;
    while left > 0 {
        let next = arm(alloc, cursor, vars, process, each, sums)?;
        sums = next.sums;
        arms.push(next.arm)?;
        left -= 1;
    }
    Ok(Arms { arms, sums })
}

/// An arm: `arm`, its items and its block.
#[cycle(step)]
fn arm(
    alloc: Global,
    cursor: &mut Cursor<'_>,
    vars: &[Var],
    process: Process,
    each: Case,
    sums: Sums,
) -> Result<ReadArm, ReadFault>
    requires few { length vars.now ≤ 2 ^ 32 }
    requires variables { All IsVariable vars.now }
    requires sums { is_within (load_of sums) ≡ true }
    requires deep { each.deep ≤ 700 }
    requires narrow { each.width ≤ 128 }
    ensures { Reads (arm_marks (around_of vars.now process) each.width each.deep (load_of sums))
        (IsArm (around_of vars.now process) each.width each.deep (load_of sums)) cursor.old result cursor.new }
{
    let turns = arm_line(cursor, sums)?;
    let held = read_items(alloc, cursor, vars, process, each.width, turns, sums)?;
    let body = block(alloc, cursor, vars, process, each.deep + 1, held.sums)?;
    let sums = body.sums;
    let arm = StepArm {
        items: held.items,
        body: body.steps,
    };
    Ok(ReadArm { arm, sums })
}
