//! The command.

ghost use Rattle.std.specs.Prelude.{◌≡◌, ◌≤◌, Some, length, IfSome};
ghost use Rattle.cov_types.specs.Limits.{most};
ghost use Rattle.cov_types.specs.declared.limit.LimitName.TheVariants.{CvdBytes};
ghost use Rattle.command_ending.specs.Ending.{line_at, status_at};
ghost use Rattle.command_ending.specs.Leaves.{Leaves};
ghost use Rattle.command_ending.specs.World.{world};
ghost use Rattle.sim_answer.specs.SimPromise.{sim_promise};
ghost use Rattle.sim_frame.specs.Asked.{seen};
ghost use Rattle.sim_frame.specs.Sparing.{SimSpares};

use crate::design_ending::design_ending;
use command_ending::Ending;
use command_sim::simulate_design;
use cov_port::{Files, Sink};
use cvd_file::decode;
use sim_frame::{Simulation, take_design};
use std::alloc::Global;

/// Does all that a `sim` is asked for.
///
/// The design file is read and decoded; then the header of the stimulus is read and all memory taken; then the design runs row by row, and
/// prints while it runs; the data file is stored at the end.
pub fn simulate<F: Files, O: Sink>(
    alloc: Global,
    files: &mut F,
    out: &mut O,
    asked: &Simulation<'_>,
) -> Ending
    requires { asked.now.count_bits ≤ 64 }
    ensures leaves { Leaves (sim_promise (seen asked.now)) (line_at result)
        (world (F.held files.old) (F.faults files.old) (O.written out.old) (O.faults out.old))
        (world (F.held files.new) (F.faults files.new) (O.written out.new) (O.faults out.new)) (status_at result) }

    // Of a stimulus that is refused at a line no more is taken than the lines before it and one buffer.
    ensures sparing { IfSome (F.held files.old) (SimSpares (seen asked.now) (status_at result) (F.rest files.new)) }
{
    match take_design(alloc, files, asked.design) {
        Ok(text) => simulate_text(alloc, files, out, asked, text.as_slice()),
        Err(ending) => ending,
    }
}

/// Does the same for this text of the design file.
fn simulate_text<F: Files, O: Sink>(
    alloc: Global,
    files: &mut F,
    out: &mut O,
    asked: &Simulation<'_>,
    text: &[u8],
) -> Ending
    requires holds { IfSome (F.held files.old) (λ held. held asked.now.design.now ≡ Some text.now) }
    requires within { length text.now ≤ most CvdBytes }
    requires bits { asked.now.count_bits ≤ 64 }
    ensures leaves { Leaves (sim_promise (seen asked.now)) (line_at result)
        (world (F.held files.old) (F.faults files.old) (O.written out.old) (O.faults out.old))
        (world (F.held files.new) (F.faults files.new) (O.written out.new) (O.faults out.new)) (status_at result) }
    ensures sparing { IfSome (F.held files.old) (SimSpares (seen asked.now) (status_at result) (F.rest files.new)) }
{
    match decode(alloc, text) {
        Ok((design, order)) => simulate_design(alloc, files, out, asked, &design, &order),
        Err(fault) => design_ending(alloc, asked.design, fault),
    }
}
