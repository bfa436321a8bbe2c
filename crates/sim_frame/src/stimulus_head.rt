//! The stimulus, up to its header.

ghost use Rattle.std.specs.Prelude.{◌≡◌, true, IfOk, IfErr, IfSome, OnOk};
ghost use Rattle.design_meaning.specs.Valid.{IsValid};
ghost use Rattle.command_ending.specs.Ending.{status_at};
ghost use Rattle.command_ending.specs.Opening.{IsOpened};
ghost use Rattle.command_ending.specs.Stops.{Stops};
ghost use Rattle.sim_answer.specs.SimAnswer.{HoldsDesign};
ghost use Rattle.sim_answer.specs.SimPromise.{sim_promise};
ghost use Rattle.stim_lines.specs.Reading.{is_of_text};
ghost use Rattle.stim_lines.specs.declared.fault.StimFault.TheVariants as fault;
ghost use Rattle.sim_frame.specs.Asked.{seen};
ghost use Rattle.sim_frame.specs.Heads.{IsBegun, IsHeadEnding, IsReaderOf};
ghost use Rattle.sim_frame.specs.Sparing.{SimSpares};

use crate::asked::Simulation;
use command_ending::{Ending, open_input};
use cov_port::Files;
use design_tree::Instrumented;
use sim_ending::StimulusLines;
use std::alloc::Global;
use stim_lines::{Row, StimFault};
use stimulus::StimReader;

/// A stimulus behind its header, with a row to read into, and what is said where it is refused.
#[derive(Drop)]
pub struct OpenStimulus<'a> {
    pub reader: StimReader,
    pub row: Row,
    pub lines: StimulusLines<'a>,
}

/// Opens the stimulus and reads its header.
///
/// All memory that its rows and their refusals need is taken here.
pub fn open_stimulus<'a, F: Files>(
    alloc: Global,
    files: &mut F,
    asked: &Simulation<'a>,
    design: &Instrumented,
) -> Result<OpenStimulus<'a>, Ending>
    requires valid { IsValid design.now }
    requires holds { IfSome (F.held files.old) (λ held. HoldsDesign held asked.now.design.now design.now) }
    ensures begun { IfOk result (λ begun. IfSome (F.held files.old)
        (λ held. IsBegun held asked.now.stimulus.now design.now.design begun.reader (F.rest files.new))) }
    ensures reader { IfOk result (λ begun. IsReaderOf design.now.design begun.reader begun.row) }
    ensures lines { IfOk result (λ begun. begun.lines ≡ asked.now.stimulus.now) }
    ensures ok_quiet { OnOk result (F.faults files.new ≡ F.faults files.old) }
    ensures err { IfErr result (Stops (sim_promise (seen asked.now)) (F.held files.old) (F.faults files.old) (F.faults files.new)) }
    ensures sparing { IfErr result (λ ending. IfSome (F.held files.old) (SimSpares (seen asked.now) (status_at ending) (F.rest files.new))) }
    ensures held { F.held files.new ≡ F.held files.old }
{
    let lines = match StimulusLines::reserve(alloc, asked.stimulus) {
        Ok(lines) => lines,
        Err(_) => return Err(Ending::NoMemory),
    };
    match open_input(alloc, files, asked.stimulus) {
        Ok(_) => read_head(alloc, files, asked, design, lines),
        Err(ending) => Err(ending),
    }
}

/// Reads the header of the stimulus, which is open.
fn read_head<'a, F: Files>(
    alloc: Global,
    files: &mut F,
    asked: &Simulation<'a>,
    design: &Instrumented,
    lines: StimulusLines<'a>,
) -> Result<OpenStimulus<'a>, Ending>
    requires valid { IsValid design.now }
    requires holds { IfSome (F.held files.old) (λ held. HoldsDesign held asked.now.design.now design.now) }
    requires opened { IsOpened (F.held files.old) asked.now.stimulus.now (F.rest files.old) }
    requires lines { lines ≡ asked.now.stimulus.now }
    ensures begun { IfOk result (λ begun. IfSome (F.held files.old)
        (λ held. IsBegun held asked.now.stimulus.now design.now.design begun.reader (F.rest files.new))) }
    ensures reader { IfOk result (λ begun. IsReaderOf design.now.design begun.reader begun.row) }
    ensures lines { IfOk result (λ begun. begun.lines ≡ asked.now.stimulus.now) }
    ensures ok_quiet { OnOk result (F.faults files.new ≡ F.faults files.old) }
    ensures err { IfErr result (Stops (sim_promise (seen asked.now)) (F.held files.old) (F.faults files.old) (F.faults files.new)) }
    ensures sparing { IfErr result (λ ending. IfSome (F.held files.old) (SimSpares (seen asked.now) (status_at ending) (F.rest files.new))) }
    ensures held { F.held files.new ≡ F.held files.old }
{
    match StimReader::header(alloc, files, &design.design) {
        Ok((reader, row)) => Ok(OpenStimulus { reader, row, lines }),
        Err(fault) => Err(head_ending(lines, fault)),
    }
}

/// How a `sim` ends for a fault at or before the header of its stimulus.
fn head_ending(lines: StimulusLines<'_>, flaw: StimFault) -> Ending
    requires { (flaw ≡ fault.Failed → ⊥) → (flaw ≡ fault.NoMemory → ⊥) → is_of_text flaw ≡ true }
    ensures { IsHeadEnding lines.entry flaw result }
{
    match flaw {
        StimFault::NoMemory => Ending::NoMemory,
        StimFault::Failed => lines.read_failed(),
        _ => lines.refused(flaw),
    }
}
