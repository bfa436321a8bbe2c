//! The lines at the borders of blocks and arms.

ghost use Rattle.std.specs.Prelude.{◌≡◌, ◌≤◌, ◌*◌, ◌+◌, ℕ, IfOk, length, nat_le, true};
ghost use Rattle.cvd_cursor.specs.Reads.{Reads};
ghost use Rattle.cvd_step_laws.specs.StepMarks.{block_end, within};
ghost use Rattle.cvd_steps.specs.Bodies.{load_of};
ghost use Rattle.cvd_steps.specs.Lines.{arm_line_marks, begin_marks};
ghost use Rattle.cvd_targets.specs.Lists.{AreTurns};
ghost use Rattle.cvd_text.specs.Lines.{is_within};
ghost use Rattle.cvd_text.specs.Steps.{Around};

use crate::place::may_end;
use crate::sums::Sums;
use cov_types::ProcessKind;
use cvd_cursor::{Cursor, ReadFault, expect, number};
use cvd_targets::turns;

/// The greatest depth of a block.
const MOST_DEEP: u32 = 700;

/// The line `begin` of a block so deep.
pub(crate) fn begin(cursor: &mut Cursor<'_>, deep: u32, sums: Sums) -> Result<(), ReadFault>
    requires { is_within (load_of sums) ≡ true }
    ensures reads { Reads (begin_marks (load_of sums) deep) (λ p held. Unit {0}) cursor.old result cursor.new }
    ensures deep { IfOk result (λ _. deep ≤ 700) }
{
    expect(cursor, b"begin")?;
    let stands = reaches(deep);
    cursor.end_line(stands)?;
    Ok(())
}

/// Whether a block may be so deep.
fn reaches(deep: u32) -> bool
    ensures { result ≡ nat_le deep 700 }
{
    deep <= MOST_DEEP
}

/// The line `end` of a block behind so many steps.
pub(crate) fn end(
    cursor: &mut Cursor<'_>,
    kind: ProcessKind,
    deep: u32,
    count: usize,
    sums: Sums,
) -> Result<(), ReadFault>
    requires { is_within (load_of sums) ≡ true }
    ensures { (around : Around) → around.kind ≡ kind
        → Reads (λ (u : Unit {0}). block_end around deep (within (load_of sums) count)) (λ u held. Unit {0}) cursor.old result cursor.new }
{
    expect(cursor, b"end")?;
    let stands = may_end(kind, deep, count);
    cursor.end_line(stands)?;
    Ok(())
}

/// The line `arm`, and how often an item has to be read.
pub(crate) fn arm_line(cursor: &mut Cursor<'_>, sums: Sums) -> Result<u128, ReadFault>
    requires { is_within (load_of sums) ≡ true }
    ensures { Reads (arm_line_marks (load_of sums)) (λ p held. (bytes : ℕ) × ((length cursor.new.rest ≤ 2 * bytes + 1) × AreTurns bytes p.1.0 held)) cursor.old
        result cursor.new }
{
    expect(cursor, b"arm")?;
    let count = number(cursor)?;
    cursor.end_line(true)?;
    let turns = turns(count, cursor.bytes_left());
    Ok(turns)
}
