//! What the run of a row's design leaves.

ghost use Rattle.std.specs.Prelude.{◌≡◌, ◌<◌, ◌^◌, [], true, length, IfOk};
ghost use Rattle.cycle_run.specs.declared.end.CycleEnd.TheVariants as cycle_end;
ghost use Rattle.simulator.specs.Machines.{CanRun, IsSound};

use anyhow::anyhow;
use cov_types::Rows;
use cvd_file::decode;
use design_rows::text_of;
use design_tree::{Design, Instrumented};
use simulator::{CycleEnd, Machine, Order, Row};
use std::alloc::Global;
use std::fmt::Write;
use std::marker::Brand;
use std::sync::ledger::{Blank, Ledger};
use step_count::Steps;

fn name_of(end: CycleEnd) -> &'static str {
    match end {
        CycleEnd::Goes => "goes",
        CycleEnd::Finished => "finished",
        CycleEnd::Stopped => "stopped",
    }
}

/// Appends the text of a machine's last call.
fn add_line(alloc: Global, machine: &Machine<'_>, text: &mut String) -> anyhow::Result<()> {
    let line = String::from_utf8_lossy(alloc, machine.line())?;
    write!(text, "{line}")?;
    Ok(())
}

/// Runs cycles up to a number, or to the first that sets a flag, and gives how the last one ended.
fn run_cycles<L: Ledger>(
    alloc: Global,
    machine: &mut Machine<'_>,
    cycles: u32,
    text: &mut String,
    steps: &mut Steps<L>,
) -> anyhow::Result<CycleEnd>
    requires sound { IsSound machine.old }
    requires started { machine.old.started ≡ true }
    requires goes { machine.old.end ≡ cycle_end.Goes }
    requires first { machine.old.cycles ≡ 0 }
    requires closed { machine.old.design.design.inputs ≡ [] }
{
    let row = Row {
        values: Rows::new(alloc),
        repeat: 1,
    };
    for _turn in 0..cycles {
        let end = machine.cycle(&row, steps);
        add_line(alloc, machine, text)?;
        match end {
            CycleEnd::Goes => {}
            end => return Ok(end),
        }
    }
    Ok(CycleEnd::Goes)
}

/// The text of a run, how it stands, after how many cycles, and its counters.
fn run_design<L: Ledger>(
    alloc: Global,
    design: &Instrumented,
    order: &Order,
    cycles: u32,
    blank: Blank,
) -> anyhow::Result<String>
    requires can { CanRun design.now order.now }
    requires closed { design.now.design.inputs ≡ [] }
    requires name { blank.name ≡ L.name }
    requires parts { blank.parts ≡ L.parts }
    requires some { 0 < blank.parts }
{
    let mut steps = Steps::<L>::new(blank);
    let mut machine = Machine::prepare(alloc, design, order).map_err(|_| anyhow!("no memory"))?;
    let mut text = String::new(alloc);
    let begun = machine.start(&mut steps);
    add_line(alloc, &machine, &mut text)?;
    let end = match begun {
        CycleEnd::Goes => run_cycles(alloc, &mut machine, cycles, &mut text, &mut steps)?,
        end => end,
    };
    write!(text, "== {} {}:", name_of(end), machine.cycles())?;
    for count in machine.counts() {
        write!(text, " {count}")?;
    }
    Ok(text)
}

/// Whether a design has no inputs.
fn is_closed(design: &Design) -> bool
    ensures { result ≡ true → design.now.inputs ≡ [] }
{
    design.inputs.len() == 0
}

/// The run of a row: a number of cycles, and a design without inputs.
pub(crate) fn told(alloc: Global, row: &str) -> anyhow::Result<String> {
    let (first, rest) = row.split_once(" ").ok_or(anyhow!("no design"))?;
    let cycles = first.parse::<u32>()?;
    let text = text_of(alloc, rest)?;
    match decode(alloc, text.as_slice()) {
        Ok((x, order)) => {
            if is_closed(&x.design) {
                run_design::<Brand>(alloc, &x, &order, cycles, Blank::new(1))
            } else {
                Err(anyhow!("not a closed design"))
            }
        }
        Err(fault) => Ok(format!(in alloc; "{fault}")?),
    }
}
