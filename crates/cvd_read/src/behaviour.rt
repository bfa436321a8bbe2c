//! Processes, and what stands behind them.

ghost use Rattle.std.specs.Prelude.{◌≡◌, ◌≤◌, ◌^◌, All, length, true};
ghost use Rattle.cvd_line_ends.specs.Ends.{ReadsLines};
ghost use Rattle.cvd_section_laws.proofs.Whole.{processes_on};
ghost use Rattle.cvd_sections.specs.Keys.{AreCut};
ghost use Rattle.cvd_steps.specs.Bodies.{load_of};
ghost use Rattle.cvd_text.specs.Lines.{is_within};
ghost use Rattle.design_meaning.specs.ValidVariables.{IsVariable};
ghost use Rattle.cvd_read.specs.Held.{HoldsBehaviour};

use crate::entries::{Entries, read_entries};
use crate::process::read_processes;
use cov_types::{Rows, Var};
use cvd_cursor::{Cursor, ReadFault};
use cvd_steps::Sums;
use design_tree::Process;
use std::alloc::Global;

/// What a design does, and what its counters count.
#[derive(Drop)]
pub(crate) struct Behaviour {
    pub(crate) processes: Rows<Process>,
    pub(crate) entries: Entries,
}

/// The processes of a design over variables with so many counters, and what stands behind them.
pub(crate) fn read_behaviour(
    alloc: Global,
    cursor: &mut Cursor<'_>,
    vars: &[Var],
    counters: u32,
    sums: Sums,
) -> Result<Behaviour, ReadFault>
    requires few { length vars.now ≤ 2 ^ 32 }
    requires variables { All IsVariable vars.now }
    requires sums { is_within (load_of sums) ≡ true }
    requires cut { AreCut cursor.old.rest }
    ensures { ReadsLines (processes_on vars.now counters (load_of sums)) HoldsBehaviour cursor.old result cursor.new }
{
    let processes = read_processes(alloc, cursor, vars, counters, sums)?;
    let entries = read_entries(alloc, cursor, vars, counters)?;
    Ok(Behaviour { processes, entries })
}
