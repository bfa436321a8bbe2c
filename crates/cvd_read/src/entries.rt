//! What stands behind the processes: toggle entries, points, and the last line.

ghost use Rattle.std.specs.Prelude.{◌≡◌, ◌≤◌, ◌^◌, length, true};
ghost use Rattle.cvd_line_ends.specs.Ends.{ReadsLines};
ghost use Rattle.cvd_section_laws.proofs.Whole.{points_on, toggles_on};
ghost use Rattle.cvd_sections.specs.Keys.{AreCut};
ghost use Rattle.cvd_text.specs.Lines.{Load, is_within};
ghost use Rattle.cvd_read.specs.Held.{HoldsEntries};

use cov_types::{Rows, Var};
use cvd_cursor::{Cursor, ReadFault};
use cvd_sections::{read_last_line, read_points, read_toggles};
use design_tree::{PointRow, ToggleEntry};
use std::alloc::Global;

/// The entries of a design that tell what its counters count.
#[derive(Drop)]
pub(crate) struct Entries {
    pub(crate) toggles: Rows<ToggleEntry>,
    pub(crate) points: Rows<PointRow>,
}

/// The points of a design with so many counters, and the last line.
fn read_last(
    alloc: Global,
    cursor: &mut Cursor<'_>,
    counters: u32,
) -> Result<Rows<PointRow>, ReadFault>
    requires { AreCut cursor.old.rest }
    ensures { (load : Load) → is_within load ≡ true → ReadsLines (points_on counters load) (λ p held. held ≡ p.0) cursor.old result cursor.new }
{
    let points = read_points(alloc, cursor, counters)?;
    read_last_line(cursor)?;
    Ok(points)
}

/// The toggle entries of a design over variables with so many counters, and what stands behind them.
pub(crate) fn read_entries(
    alloc: Global,
    cursor: &mut Cursor<'_>,
    vars: &[Var],
    counters: u32,
) -> Result<Entries, ReadFault>
    requires few { length vars.now ≤ 2 ^ 32 }
    requires cut { AreCut cursor.old.rest }
    ensures { (load : Load) → is_within load ≡ true → ReadsLines (toggles_on vars.now counters load) HoldsEntries cursor.old result cursor.new }
{
    let toggles = read_toggles(alloc, cursor, vars, counters)?;
    let points = read_last(alloc, cursor, counters)?;
    Ok(Entries { toggles, points })
}
