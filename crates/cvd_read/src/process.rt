//! Processes.

ghost use Rattle.std.specs.Prelude.{◌≡◌, ◌≤◌, ◌^◌, All, ℕ, length, nat_le, true};
ghost use Rattle.cov_types.specs.Limits.{most};
ghost use Rattle.cov_types.specs.declared.limit.LimitName.TheVariants as limit;
ghost use Rattle.cvd_cursor.specs.Numerals.{below};
ghost use Rattle.cvd_cursor.specs.Reads.{Reads};
ghost use Rattle.cvd_step_laws.specs.LineMarks.{each_lines, with_vars};
ghost use Rattle.cvd_steps.specs.Bodies.{load_of};
ghost use Rattle.cvd_text.specs.Lines.{is_within};
ghost use Rattle.cvd_text.specs.Pieces.{marks_of};
ghost use Rattle.cvd_text.specs.Sections.{process_lines, processes_lines};
ghost use Rattle.cvd_section_laws.proofs.Sections.{with_processes};
ghost use Rattle.design_meaning.specs.ValidVariables.{IsVariable};
ghost use Rattle.cvd_read.specs.Held.{HoldsProcess, HoldsProcesses};

use cov_types::{Rows, Var};
use cvd_cursor::{Cursor, ReadFault};
use cvd_sections::{read_heading, read_process_kind, wants_more};
use cvd_steps::{Sums, read_body};
use design_tree::Process;
use std::alloc::Global;

/// The greatest number of processes of a design.
const MOST_PROCESSES: u64 = 65_536;

/// A process, and what the lines up to its last add up to.
#[derive(Drop)]
pub(crate) struct ReadProcess {
    pub(crate) process: Process,
    pub(crate) sums: Sums,
}

/// The processes of a design over variables with so many counters, behind lines that add up to this.
pub(crate) fn read_processes(
    alloc: Global,
    cursor: &mut Cursor<'_>,
    vars: &[Var],
    counters: u32,
    before: Sums,
) -> Result<Rows<Process>, ReadFault>
    requires few { length vars.now ≤ 2 ^ 32 }
    requires variables { All IsVariable vars.now }
    requires sums { is_within (load_of before) ≡ true }
    ensures { Reads (λ ps. marks_of (load_of before) (processes_lines (with_processes vars.now ps) counters))
        (HoldsProcesses vars.now counters (load_of before)) cursor.old result cursor.new }
{
    let count = read_heading(cursor, b"processes")?;
    cursor.end_line(may_be(count))?;
    let mut kept: Rows<Process> = Rows::new(alloc);
    let mut sums = before;
    'processes: while wants_more(count, kept.len()) {
        let next = read_process(alloc, cursor, vars, counters, sums)?;
        sums = next.sums;
        kept.push(next.process)?;
    }
    Ok(kept)
}

/// Whether a design may have so many processes.
fn may_be(count: Option<u64>) -> bool
    ensures { (n : ℕ) → count ≡ below (2 ^ 64) n → result ≡ nat_le n (most limit.Processes) }
{
    match count {
        Some(count) => count <= MOST_PROCESSES,
        None => false,
    }
}

/// A process: the word of its kind, and its block.
fn read_process(
    alloc: Global,
    cursor: &mut Cursor<'_>,
    vars: &[Var],
    counters: u32,
    sums: Sums,
) -> Result<ReadProcess, ReadFault>
    requires few { length vars.now ≤ 2 ^ 32 }
    requires variables { All IsVariable vars.now }
    requires sums { is_within (load_of sums) ≡ true }
    ensures { Reads (each_lines (process_lines (with_vars vars.now) counters) (load_of sums))
        (HoldsProcess vars.now counters (load_of sums)) cursor.old result cursor.new }
{
    let kind = read_process_kind(cursor)?;
    cursor.end_line(true)?;
    let body = read_body(
        alloc,
        cursor,
        vars,
        cvd_steps::Process { kind, counters },
        sums,
    )?;
    Ok(ReadProcess {
        process: Process {
            kind,
            body: body.steps,
        },
        sums: body.sums,
    })
}
