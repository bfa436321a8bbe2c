ghost use Rattle.std.specs.Prelude.{◌≡◌, ◌≤◌, ◌<◌, ◌+◌, List, ℕ, true, None, length, IfOk, IfErr, IfSome, IsErrOf, OnOk, OnErr};
ghost use Rattle.cov_port.specs.Files.{ReadsRose};
ghost use Rattle.cov_port.specs.Lines.{bytes_of};
ghost use Rattle.stim_lines.specs.Fields.{refused, says};
ghost use Rattle.stim_lines.specs.Reading.{NamesLine, is_of_text, line_of};
ghost use Rattle.stim_lines.specs.declared.fault.StimFault.TheVariants as fault;
ghost use Rattle.stimulus.specs.Lines.{IsFrugal, StandsIn, fresh_lines, heard_left};
ghost use Rattle.stimulus.specs.Taking.{BeginsRefused, ComesTold, IfSpoken, IsNext, IsStory, Moves, line_said, line_story, story_of};

use crate::line_story::LineStory;
use cov_port::{CutFault, Files, LineCutter, LineStep, NoMemory, line_bytes};
use std::alloc::Global;
use std::marker::Model;
use stim_lines::{StimFault, long_line, read_line};

/// Takes the lines of an open stimulus that aren't skipped, one after the other.
///
/// Contracts see its cutter, and how many lines it has taken and their bytes.
#[derive(Drop)]
pub(crate) struct SpokenLines {
    cutter: LineCutter,
    number: u64,
    bytes: u64,
}

impl Model for SpokenLines {
    ghost use Rattle.stimulus.specs.Lines.{LinesState};
    ghost use Rattle.stimulus.specs.Taking.{IsInStimulus};

    ghost Value = { LinesState };

    ghost view = { λ r. record { cutter = r.cutter; number = r.number; bytes = r.bytes } };

    ghost invariant = { λ r. IsInStimulus r.number r.bytes };
}

impl SpokenLines {
    /// Lines of which none was taken. It takes a buffer of 65,536 bytes.
    pub(crate) fn new(alloc: Global) -> Result<SpokenLines, NoMemory>
        ensures { IfOk result (λ lines. lines ≡ fresh_lines) }
    {
        Ok(SpokenLines {
            cutter: LineCutter::new(alloc)?,
            number: 0,
            bytes: 0,
        })
    }

    /// The line that was given last.
    pub(crate) fn line(&self) -> &[u8]
        ensures { result.now ≡ self.now.cutter.line }
    {
        self.cutter.line()
    }

    /// The number of the line that was given last, from 1.
    pub(crate) fn number(&self) -> u64
        ensures { result ≡ self.now.number }
    {
        self.number
    }

    /// Takes the next line that isn't skipped, and tells whether there is one. It takes no memory.
    pub(crate) fn next_spoken<F: Files>(&mut self, files: &mut F) -> Result<bool, StimFault>
        requires { self.old.cutter.fault ≡ None }
        ensures comes { IfOk result (λ more. ComesTold (story_of more) (line_said self.new) (heard_left self.old (F.rest files.old))
            (heard_left self.new (F.rest files.new))) }
        ensures fault { IfErr result (λ flaw. is_of_text flaw ≡ true → IfSome (heard_left self.old (F.rest files.old)) (BeginsRefused flaw)) }
        ensures goes_on { OnOk result (self.new.cutter.fault ≡ None) }
        ensures stands { OnOk result ((text : List ℕ) → StandsIn text self.old (F.rest files.old) → StandsIn text self.new (F.rest files.new)) }
        ensures given { IfOk result (λ more. IfSpoken (story_of more)
            ((text : List ℕ) → StandsIn text self.old (F.rest files.old) → IsFrugal text (F.rest files.new) self.new.number)) }
        ensures frugal { IfErr result (λ flaw. (text : List ℕ) → StandsIn text self.old (F.rest files.old) → IfSome (line_of flaw)
            (λ n. IsFrugal text (F.rest files.new) n)) }
        ensures held { F.held files.new ≡ F.held files.old }
        ensures ok_quiet { OnOk result (F.faults files.new ≡ F.faults files.old) }
        ensures fault_quiet { IfErr result (λ flaw. (flaw ≡ fault.Failed → ⊥) → F.faults files.new ≡ F.faults files.old) }
        ensures failed { IsErrOf result fault.Failed → ReadsRose (F.faults files.old) (F.faults files.new) }
        ensures no_memory { IsErrOf result fault.NoMemory → ⊥ }
        ensures of_text { IfErr result (λ flaw. (flaw ≡ fault.Failed → ⊥) → is_of_text flaw ≡ true) }
    {
        'lines: loop {
            match self.take_line(files) {
                Ok(LineStory::Skipped) => {}
                Ok(LineStory::Spoken) => return Ok(true),
                Ok(LineStory::End) => return Ok(false),
                Err(fault) => return Err(fault),
            }
        }
    }

    /// Takes one line.
    fn take_line<F: Files>(&mut self, files: &mut F) -> Result<LineStory, StimFault>
        requires { self.old.cutter.fault ≡ None }
        ensures comes { IfOk result (λ story. ComesTold story (line_said self.new) (heard_left self.old (F.rest files.old))
            (heard_left self.new (F.rest files.new))) }
        ensures fault { IfErr result (λ flaw. is_of_text flaw ≡ true → IfSome (heard_left self.old (F.rest files.old)) (BeginsRefused flaw)) }
        ensures goes_on { OnOk result (self.new.cutter.fault ≡ None) }
        ensures moves { IfOk result (λ story. Moves story self.old.bytes self.new.bytes) }
        ensures within { self.new.bytes ≤ 1099511627776 }
        ensures stands { OnOk result ((text : List ℕ) → StandsIn text self.old (F.rest files.old) → StandsIn text self.new (F.rest files.new)) }
        ensures given { IfOk result (λ story. IfSpoken story
            ((text : List ℕ) → StandsIn text self.old (F.rest files.old) → IsFrugal text (F.rest files.new) self.new.number)) }
        ensures frugal { IfErr result (λ flaw. (text : List ℕ) → StandsIn text self.old (F.rest files.old) → IfSome (line_of flaw)
            (λ n. IsFrugal text (F.rest files.new) n)) }
        ensures held { F.held files.new ≡ F.held files.old }
        ensures ok_quiet { OnOk result (F.faults files.new ≡ F.faults files.old) }
        ensures fault_quiet { IfErr result (λ flaw. (flaw ≡ fault.Failed → ⊥) → F.faults files.new ≡ F.faults files.old) }
        ensures failed { IsErrOf result fault.Failed → ReadsRose (F.faults files.old) (F.faults files.new) }
        ensures no_memory { IsErrOf result fault.NoMemory → ⊥ }
        ensures of_text { IfErr result (λ flaw. (flaw ≡ fault.Failed → ⊥) → is_of_text flaw ≡ true) }
    {
        match self.cutter.next_line(files) {
            Ok(LineStep::Line) => self.tell(true),
            Ok(LineStep::LastLine) => self.tell(false),
            Ok(LineStep::End) => Ok(LineStory::End),
            Err(CutFault::Failed) => Err(StimFault::Failed),
            Err(CutFault::TooLong) => Err(long_line(self.number + 1, self.bytes)),
        }
    }

    /// Tells what the line that the cutter gave comes to.
    fn tell(&mut self, ended: bool) -> Result<LineStory, StimFault>
        requires short { length self.old.cutter.line ≤ 65535 }
        requires some { 0 < bytes_of (self.old.cutter.line, ended) }
        ensures story { IfOk result (λ story. IsStory story (self.old.number + 1) self.old.cutter.line
            (says (self.old.bytes + bytes_of (self.old.cutter.line, ended)) (self.old.number + 1) (self.old.cutter.line, ended))) }
        ensures moved { OnOk result (IsNext (bytes_of (self.old.cutter.line, ended)) self.old self.new) }
        ensures within { self.new.bytes ≤ 1099511627776 }
        ensures fault { IfErr result (λ flaw. says (self.old.bytes + bytes_of (self.old.cutter.line, ended)) (self.old.number + 1)
            (self.old.cutter.line, ended) ≡
            refused flaw) }
        ensures err { OnErr result (self.new ≡ self.old) }
        ensures line { IfErr result (λ flaw. NamesLine flaw (self.old.number + 1)) }
        ensures of_text { IfErr result (λ flaw. is_of_text flaw ≡ true) }
    {
        let line = self.cutter.line();
        let bytes = self.bytes + line_bytes(line, ended);
        let speaks = match read_line(self.number + 1, bytes, line) {
            Ok(speaks) => speaks,
            Err(fault) => return Err(fault),
        };
        self.number += 1;
        self.bytes = bytes;
        Ok(line_story(speaks))
    }
}

/// What a line comes to that speaks or is skipped.
fn line_story(speaks: bool) -> LineStory
    ensures { result ≡ line_story speaks }
{
    if speaks {
        LineStory::Spoken
    } else {
        LineStory::Skipped
    }
}
