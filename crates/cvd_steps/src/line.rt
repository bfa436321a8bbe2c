//! The lines that steps begin with.

ghost use Rattle.std.specs.Prelude.{◌≡◌, ◌≤◌, ◌<◌, ◌^◌, ◌*◌, ◌+◌, All, ℕ, List, IfOk, length, codes};
ghost use Rattle.cvd_cursor.specs.Reads.{Reads, line_marks};
ghost use Rattle.cvd_step_laws.specs.StepMarks.{assigned_marks, counted_marks, ending_line, shown_marks};
ghost use Rattle.cvd_steps.specs.Bodies.{AreSums, IsAssignedLine, IsCaseLine, IsCountLine, IsShowLine, IsTestLine, around_of, load_of};
ghost use Rattle.cvd_steps.specs.Lines.{case_marks, test_marks};
ghost use Rattle.cvd_text.specs.Lines.{added, stands};
ghost use Rattle.cvd_text.specs.Steps.{Around, Sort, Spot, counts, may_stand, other, speaks, tests};
ghost use Rattle.design_meaning.specs.ValidVariables.{IsVariable};

use crate::process::Process;
use crate::sums::{Own, Sums, both, close, refuse};
use cov_types::{Rows, Var};
use cvd_cursor::{Cursor, ReadFault, number};
use cvd_expressions::{Expression, read_expression};
use cvd_nodes::number32;
use cvd_targets::{Assigned, Pieces, read_assigned, read_pieces, turns};
use design_tree::{Piece, Target, Typed};
use sqlite_items::Boxed;
use std::alloc::Global;

/// What a `set` or `later` assigns.
#[derive(Drop)]
pub(crate) struct AssignedLine {
    pub(crate) targets: Rows<Target>,
    pub(crate) value: Boxed<Typed>,
    pub(crate) sums: Sums,
}

/// The rest of a line of `set` or `later`, which may stand or not.
pub(crate) fn assigned_line(
    alloc: Global,
    cursor: &mut Cursor<'_>,
    vars: &[Var],
    process: Process,
    allowed: bool,
    sums: Sums,
) -> Result<AssignedLine, ReadFault>
    requires { length vars.now ≤ 2 ^ 32 }
    ensures { (at : Spot) (sort : Sort) (name : List ℕ) → allowed ≡ may_stand process.kind at sort
        → Reads (assigned_marks (around_of vars.now process) (load_of sums) at sort name)
        (λ p held. IsAssignedLine (around_of vars.now process) (load_of sums) at sort name p.1.0.items p.1.1.0 held) cursor.old result cursor.new }
{
    let Some(held) = read_assigned(alloc, cursor, vars, process.kind)? else {
        return Err(refuse(cursor));
    };
    let Assigned {
        targets,
        value,
        nodes,
    } = held;
    let own = Own {
        steps: 1,
        nodes,
        shown: 0,
    };
    let sums = close(cursor, allowed, sums, own)?;
    Ok(AssignedLine {
        targets,
        value,
        sums,
    })
}

/// The test of an `if`.
#[derive(Drop)]
pub(crate) struct TestLine {
    pub(crate) test: Boxed<Typed>,
    pub(crate) sums: Sums,
}

/// The rest of a line of `if`, which may stand or not.
pub(crate) fn test_line(
    alloc: Global,
    cursor: &mut Cursor<'_>,
    vars: &[Var],
    process: Process,
    allowed: bool,
    sums: Sums,
) -> Result<TestLine, ReadFault>
    requires { length vars.now ≤ 2 ^ 32 }
    ensures { (at : Spot) → allowed ≡ may_stand process.kind at tests
        → Reads (test_marks (around_of vars.now process) (load_of sums) at)
        (λ p held. IsTestLine (around_of vars.now process) (load_of sums) at p.0 held) cursor.old result cursor.new }
{
    let Some(held) = read_expression(alloc, cursor, vars)? else {
        return Err(refuse(cursor));
    };
    let Expression { tree, width, nodes } = held;
    let own = Own {
        steps: 1,
        nodes,
        shown: 0,
    };
    let holds = both(allowed, width == 1);
    let sums = close(cursor, holds, sums, own)?;
    Ok(TestLine { test: tree, sums })
}

/// What a `case` compares, its width, and how often an arm has to be read.
#[derive(Drop)]
pub(crate) struct CaseLine {
    pub(crate) on: Boxed<Typed>,
    pub(crate) width: u8,
    pub(crate) turns: u128,
    pub(crate) sums: Sums,
}

/// The rest of a line of `case`, which may stand or not.
pub(crate) fn case_line(
    alloc: Global,
    cursor: &mut Cursor<'_>,
    vars: &[Var],
    process: Process,
    allowed: bool,
    sums: Sums,
) -> Result<CaseLine, ReadFault>
    requires few { length vars.now ≤ 2 ^ 32 }
    requires variables { All IsVariable vars.now }
    ensures reads { (at : Spot) → allowed ≡ may_stand process.kind at other
        → Reads (case_marks (around_of vars.now process) (load_of sums) at)
        (λ p held. (bytes : ℕ) × ((length cursor.new.rest ≤ 2 * bytes + 1) × IsCaseLine (around_of vars.now process) (load_of sums) at p.0 p.1.0
        bytes held)) cursor.old result cursor.new }
    ensures narrow { IfOk result (λ held. held.width ≤ 128) }
{
    let count = number(cursor)?;
    let Some(held) = read_expression(alloc, cursor, vars)? else {
        return Err(refuse(cursor));
    };
    let Expression { tree, width, nodes } = held;
    if width > 128 {
        return Err(refuse(cursor));
    }
    let own = Own {
        steps: 1,
        nodes,
        shown: 0,
    };
    let sums = close(cursor, allowed, sums, own)?;
    let turns = turns(count, cursor.bytes_left());
    Ok(CaseLine {
        on: tree,
        width,
        turns,
        sums,
    })
}

/// The pieces of a `show`.
#[derive(Drop)]
pub(crate) struct ShowLine {
    pub(crate) pieces: Rows<Piece>,
    pub(crate) sums: Sums,
}

/// The rest of a line of `show`, which may stand or not.
pub(crate) fn show_line(
    alloc: Global,
    cursor: &mut Cursor<'_>,
    vars: &[Var],
    process: Process,
    allowed: bool,
    sums: Sums,
) -> Result<ShowLine, ReadFault>
    requires few { length vars.now ≤ 2 ^ 32 }
    requires variables { All IsVariable vars.now }
    ensures { (at : Spot) → allowed ≡ may_stand process.kind at speaks
        → Reads (shown_marks (around_of vars.now process) (load_of sums) at)
        (λ p held. IsShowLine (around_of vars.now process) (load_of sums) at p.1.0.items held) cursor.old result cursor.new }
{
    let Some(held) = read_pieces(alloc, cursor, vars)? else {
        return Err(refuse(cursor));
    };
    let Pieces {
        items,
        nodes,
        shown,
    } = held;
    let own = Own {
        steps: 1,
        nodes,
        shown,
    };
    let sums = close(cursor, allowed, sums, own)?;
    Ok(ShowLine {
        pieces: items,
        sums,
    })
}

/// The end of a line of `finish` or `stop`, which may stand or not.
pub(crate) fn ending(cursor: &mut Cursor<'_>, allowed: bool, sums: Sums) -> Result<Sums, ReadFault>
    ensures { (around : Around) (at : Spot) (name : List ℕ) → allowed ≡ may_stand around.kind at speaks
        → Reads (line_marks (stands (load_of sums) (ending_line around at name)))
        (λ u held. AreSums (added (load_of sums) (ending_line around at name).load) held) cursor.old result cursor.new }
{
    let own = Own {
        steps: 1,
        nodes: 0,
        shown: 0,
    };
    close(cursor, allowed, sums, own)
}

/// The counter of a `count`.
#[derive(Clone, Copy)]
pub(crate) struct CountLine {
    pub(crate) counter: u32,
    pub(crate) sums: Sums,
}

/// The rest of a line of `count`, which may stand or not.
pub(crate) fn count_line(
    cursor: &mut Cursor<'_>,
    process: Process,
    allowed: bool,
    sums: Sums,
) -> Result<CountLine, ReadFault>
    ensures { (around : Around) (at : Spot) → around.counters ≡ process.counters → allowed ≡ may_stand around.kind at counts
        → Reads (counted_marks around (load_of sums) at) (λ p held. IsCountLine around (load_of sums) at p.0 held) cursor.old result cursor.new }
{
    let Some(counter) = number32(cursor)? else {
        return Err(refuse(cursor));
    };
    let own = Own {
        steps: 1,
        nodes: 0,
        shown: 0,
    };
    let holds = both(allowed, counter < process.counters);
    let sums = close(cursor, holds, sums, own)?;
    Ok(CountLine { counter, sums })
}
