//! The run of a design on a stimulus.

ghost use Rattle.std.specs.Prelude.{◌≡◌, ◌≤◌, ◌<◌, false, IfSome};
ghost use Rattle.command_ending.specs.Ending.{line_at, status_at};
ghost use Rattle.command_ending.specs.Leaves.{Leaves};
ghost use Rattle.command_ending.specs.World.{world};
ghost use Rattle.simulator.specs.Machines.{CanRun, IsSound};
ghost use Rattle.sim_answer.specs.SimAnswer.{HoldsDesign};
ghost use Rattle.sim_answer.specs.SimPromise.{sim_promise};
ghost use Rattle.sim_frame.specs.Asked.{seen};
ghost use Rattle.sim_frame.specs.EndRooms.{IsEndRoomFor};
ghost use Rattle.sim_frame.specs.Heads.{IsBegun, IsReaderOf};
ghost use Rattle.sim_frame.specs.Sparing.{SimSpares};
ghost use Rattle.cycle_run.specs.Ends.{end_seen};
ghost use Rattle.sim_frame.specs.RunEnds.{is_stop};

use command_ending::Ending;
use cov_port::{Files, Sink};
use design_tree::Instrumented;
use sim_ending::StimulusLines;
use sim_frame::{EndRoom, OpenStimulus, Simulation, open_stimulus};
use sim_run::{RowsEnd, run_stimulus};
use simulator::{CycleEnd, Machine, Order};
use std::alloc::Global;
use std::marker::Brand;
use std::sync::ledger::{Blank, Ledger};
use step_count::Steps;
use stim_lines::Row;
use stimulus::StimReader;

/// Runs a design, which the design file of this name holds, on the stimulus, and stores the data file. The order is one that the flow check
/// gives.
///
/// All memory is taken before the run starts: where it is wanted, nothing is put and nothing is stored.
pub fn simulate_design<F: Files, O: Sink>(
    alloc: Global,
    files: &mut F,
    out: &mut O,
    asked: &Simulation<'_>,
    design: &Instrumented,
    order: &Order,
) -> Ending
    requires can { CanRun design.now order.now }
    requires holds { IfSome (F.held files.old) (λ held. HoldsDesign held asked.now.design.now design.now) }
    requires bits { asked.now.count_bits ≤ 64 }
    ensures leaves { Leaves (sim_promise (seen asked.now)) (line_at result)
        (world (F.held files.old) (F.faults files.old) (O.written out.old) (O.faults out.old))
        (world (F.held files.new) (F.faults files.new) (O.written out.new) (O.faults out.new)) (status_at result) }
    ensures sparing { IfSome (F.held files.old) (SimSpares (seen asked.now) (status_at result) (F.rest files.new)) }
{
    let room = match EndRoom::reserve(alloc, asked, design) {
        Ok(room) => room,
        Err(_) => return Ending::NoMemory,
    };
    let machine = match Machine::prepare(alloc, design, order) {
        Ok(machine) => machine,
        Err(_) => return Ending::NoMemory,
    };
    match open_stimulus(alloc, files, asked, design) {
        Ok(OpenStimulus { reader, row, lines }) => {
            let mut run = OpenRun {
                machine,
                reader,
                row,
            };
            run_open::<F, O, Brand>(
                files,
                out,
                asked,
                design,
                room,
                &mut run,
                lines,
                Blank::new(1),
            )
        }
        Err(ending) => ending,
    }
}

/// A machine, and the rows of its stimulus.
#[derive(Drop)]
struct OpenRun<'a> {
    machine: Machine<'a>,
    reader: StimReader,
    row: Row,
}

/// Runs a machine that hasn't started on the stimulus, and ends the command.
// It borrows the run, so that the caller alone frees it, at one place.
fn run_open<F: Files, O: Sink, L: Ledger>(
    files: &mut F,
    out: &mut O,
    asked: &Simulation<'_>,
    design: &Instrumented,
    room: EndRoom<'_>,
    run: &mut OpenRun<'_>,
    lines: StimulusLines<'_>,
    blank: Blank,
) -> Ending
    requires holds { IfSome (F.held files.old) (λ held. HoldsDesign held asked.now.design.now design.now) }
    requires bits { asked.now.count_bits ≤ 64 }
    requires room { IsEndRoomFor design.now (seen asked.now) room }
    requires sound { IsSound run.old.machine }
    requires design { run.old.machine.design ≡ design.now }
    requires first { run.old.machine.started ≡ false }
    requires begun { IfSome (F.held files.old) (λ held. IsBegun held asked.now.stimulus.now design.now.design run.old.reader (F.rest files.old)) }
    requires reader { IsReaderOf design.now.design run.old.reader run.old.row }
    requires lines { lines ≡ asked.now.stimulus.now }
    requires name { blank.name ≡ L.name }
    requires parts { blank.parts ≡ L.parts }
    requires some { 0 < blank.parts }
    ensures leaves { Leaves (sim_promise (seen asked.now)) (line_at result)
        (world (F.held files.old) (F.faults files.old) (O.written out.old) (O.faults out.old))
        (world (F.held files.new) (F.faults files.new) (O.written out.new) (O.faults out.new)) (status_at result) }
    ensures sparing { IfSome (F.held files.old) (SimSpares (seen asked.now) (status_at result) (F.rest files.new)) }
{
    let mut room = room;
    let mut steps = Steps::<L>::new(blank);
    match run_stimulus(
        files,
        out,
        &mut run.reader,
        &mut run.row,
        &mut run.machine,
        &mut room.output,
        &mut steps,
    ) {
        RowsEnd::Ended(end) => room.store_run(
            files,
            out,
            design,
            run.machine.counts(),
            asked.count_bits,
            was_stopped(end),
        ),
        RowsEnd::Refused(fault) => room.end_with(out, lines.refused(fault)),
        RowsEnd::ReadFailed => lines.read_failed(),
        RowsEnd::PutFailed => Ending::OutputFailed,
    }
}

/// Whether a run was ended by `$stop`.
fn was_stopped(end: CycleEnd) -> bool
    ensures { result ≡ is_stop (end_seen end) }
{
    match end {
        CycleEnd::Stopped => true,
        CycleEnd::Goes | CycleEnd::Finished => false,
    }
}
