//! The steps that have no blocks.

ghost use Rattle.std.specs.Prelude.{◌≡◌, ◌≤◌, ◌^◌, All, length, codes};
ghost use Rattle.cvd_cursor.specs.Reads.{Reads, line_marks};
ghost use Rattle.cvd_step_laws.specs.StepMarks.{assigned_marks, counted_marks, ending_line, shown_marks};
ghost use Rattle.cvd_steps.specs.Bodies.{IsStep, around_of, load_of};
ghost use Rattle.cvd_text.specs.Lines.{stands};
ghost use Rattle.cvd_text.specs.Steps.{other, sets, spot};
ghost use Rattle.design_meaning.specs.ValidVariables.{IsVariable};
ghost use Rattle.design_tree.specs.declared.step.Step.TheVariants as steps;

use crate::kept::{Place, ReadStep};
use crate::line::{
    AssignedLine, CountLine, ShowLine, assigned_line, count_line, ending, show_line,
};
use crate::place::{may_count, may_go, may_set, may_speak};
use crate::process::Process;
use crate::sums::Sums;
use cov_types::Var;
use cvd_cursor::{Cursor, ReadFault};
use design_tree::Step;
use std::alloc::Global;

/// What follows the word `set`.
pub(crate) fn set(
    alloc: Global,
    cursor: &mut Cursor<'_>,
    vars: &[Var],
    process: Process,
    place: Place,
    sums: Sums,
) -> Result<ReadStep, ReadFault>
    requires { length vars.now ≤ 2 ^ 32 }
    ensures { let at = spot place.deep place.before in let around = around_of vars.now process in Reads
        (assigned_marks around (load_of sums) at sets (codes "set")) (λ p held. IsStep around (load_of sums) at (steps.Set p.1.0.items p.1.1.0) held)
        cursor.old result cursor.new }
{
    let allowed = may_set(process.kind, place.deep, place.before);
    let line = assigned_line(alloc, cursor, vars, process, allowed, sums)?;
    let AssignedLine {
        targets,
        value,
        sums,
    } = line;
    let step = Step::Set {
        targets,
        value: value.into_inner(),
    };
    Ok(ReadStep { step, sums })
}

/// What follows the word `later`.
pub(crate) fn later(
    alloc: Global,
    cursor: &mut Cursor<'_>,
    vars: &[Var],
    process: Process,
    place: Place,
    sums: Sums,
) -> Result<ReadStep, ReadFault>
    requires { length vars.now ≤ 2 ^ 32 }
    ensures { let at = spot place.deep place.before in let around = around_of vars.now process in Reads
        (assigned_marks around (load_of sums) at other (codes "later"))
        (λ p held. IsStep around (load_of sums) at (steps.Later p.1.0.items p.1.1.0) held) cursor.old result cursor.new }
{
    let allowed = may_go(process.kind, place.deep, place.before);
    let line = assigned_line(alloc, cursor, vars, process, allowed, sums)?;
    let AssignedLine {
        targets,
        value,
        sums,
    } = line;
    let step = Step::Later {
        targets,
        value: value.into_inner(),
    };
    Ok(ReadStep { step, sums })
}

/// What follows the word `show`.
pub(crate) fn show(
    alloc: Global,
    cursor: &mut Cursor<'_>,
    vars: &[Var],
    process: Process,
    place: Place,
    sums: Sums,
) -> Result<ReadStep, ReadFault>
    requires few { length vars.now ≤ 2 ^ 32 }
    requires variables { All IsVariable vars.now }
    ensures { let at = spot place.deep place.before in let around = around_of vars.now process in Reads (shown_marks around (load_of sums) at)
        (λ p held. IsStep around (load_of sums) at (steps.Show p.1.0.items) held) cursor.old result cursor.new }
{
    let allowed = may_speak(process.kind, place.deep, place.before);
    let line = show_line(alloc, cursor, vars, process, allowed, sums)?;
    let ShowLine { pieces, sums } = line;
    let step = Step::Show { pieces };
    Ok(ReadStep { step, sums })
}

/// The end of the line `finish`.
pub(crate) fn finish(
    cursor: &mut Cursor<'_>,
    vars: &[Var],
    process: Process,
    place: Place,
    sums: Sums,
) -> Result<ReadStep, ReadFault>
    ensures { let around = around_of vars.now process in let at = spot place.deep place.before in Reads
        (line_marks (stands (load_of sums) (ending_line around at (codes "finish")))) (λ p held. IsStep around (load_of sums) at steps.Finish held)
        cursor.old result cursor.new }
{
    let allowed = may_speak(process.kind, place.deep, place.before);
    let sums = ending(cursor, allowed, sums)?;
    let step = Step::Finish;
    Ok(ReadStep { step, sums })
}

/// The end of the line `stop`.
pub(crate) fn stop(
    cursor: &mut Cursor<'_>,
    vars: &[Var],
    process: Process,
    place: Place,
    sums: Sums,
) -> Result<ReadStep, ReadFault>
    ensures { let around = around_of vars.now process in let at = spot place.deep place.before in Reads
        (line_marks (stands (load_of sums) (ending_line around at (codes "stop")))) (λ p held. IsStep around (load_of sums) at steps.Stop held)
        cursor.old result cursor.new }
{
    let allowed = may_speak(process.kind, place.deep, place.before);
    let sums = ending(cursor, allowed, sums)?;
    let step = Step::Stop;
    Ok(ReadStep { step, sums })
}

/// What follows the word `count`.
pub(crate) fn count(
    cursor: &mut Cursor<'_>,
    vars: &[Var],
    process: Process,
    place: Place,
    sums: Sums,
) -> Result<ReadStep, ReadFault>
    ensures { let around = around_of vars.now process in let at = spot place.deep place.before in Reads (counted_marks around (load_of sums) at)
        (λ p held. IsStep around (load_of sums) at (steps.Count p.0) held) cursor.old result cursor.new }
{
    let allowed = may_count(process.kind, place.deep, place.before);
    let line = count_line(cursor, process, allowed, sums)?;
    let CountLine { counter, sums } = line;
    let step = Step::Count { counter };
    Ok(ReadStep { step, sums })
}
