ghost use Rattle.std.specs.Prelude.{◌≡◌, ◌≤◌, [], true, length, IfOk};
ghost use Rattle.command_ending.specs.ErrorLines as spec;
ghost use Rattle.stim_lines.specs.Reading.{is_of_text, is_stimulus_limit};
ghost use Rattle.sim_answer.specs.Refusals.{stimulus_refusal};

use crate::refusal_line::RefusalLine;
use command_ending::{Ending, Status, limit_line, read_line};
use cov_port::{ByteText, LimitName, NoMemory};
use std::alloc::Global;
use std::marker::Model;
use stim_lines::StimFault;

/// What is said where a stimulus is refused, or where a read of it fails. Contracts see its name.
#[derive(Drop)]
pub struct StimulusLines<'a> {
    name: &'a str,
    refusal: RefusalLine,
    limit: ByteText,
    read: ByteText,
}

impl<'a> Model for StimulusLines<'a> {
    ghost use Rattle.std.specs.Prelude.{◌≡◌, ℕ, List};
    ghost use Rattle.cov_types.specs.declared.limit.LimitName.TheVariants.{StimulusBytes};
    ghost use Rattle.command_ending.specs.ErrorLines as spec;
    ghost use Rattle.sim_ending.specs.Lines.{front_of};

    ghost Value = { List ℕ };

    ghost view = { λ lines. lines.name.now };

    ghost invariant = { λ lines. (lines.refusal ≡ front_of lines.name.now)
        × (lines.limit ≡ spec.limit_line StimulusBytes) × (lines.read ≡ spec.read_line lines.name.now) };
}

impl<'a> StimulusLines<'a> {
    /// Takes memory for all that may be said of a stimulus with this name.
    pub fn reserve(alloc: Global, name: &'a str) -> Result<StimulusLines<'a>, NoMemory>
        ensures { IfOk result (λ lines. lines ≡ name.now) }
    {
        let refusal = RefusalLine::reserve(alloc, name)?;
        let limit = limit_line(alloc, LimitName::StimulusBytes)?;
        let read = read_line(alloc, name)?;
        Ok(StimulusLines {
            name,
            refusal,
            limit,
            read,
        })
    }

    /// How a `sim` ends for a fault of its stimulus' text. It takes no memory.
    pub fn refused(self, fault: StimFault) -> Ending
        requires { is_of_text fault ≡ true }
        ensures { result ≡ Ending.Refused (stimulus_refusal [] self.entry fault).status (stimulus_refusal [] self.entry fault).line }
    {
        match fault {
            StimFault::BadHeader(n) => self.at_line(n, b"BadHeader"),
            StimFault::UnknownInput(n) => self.at_line(n, b"UnknownInput"),
            StimFault::MissingInput(n) => self.at_line(n, b"MissingInput"),
            StimFault::RepeatedInput(n) => self.at_line(n, b"RepeatedInput"),
            StimFault::BadValue(n) => self.at_line(n, b"BadValue"),
            StimFault::TooWide(n) => self.at_line(n, b"TooWide"),
            StimFault::WrongCount(n) => self.at_line(n, b"WrongCount"),
            StimFault::BadRepeat(n) => self.at_line(n, b"BadRepeat"),
            StimFault::TooManyCycles(n) => self.at_line(n, b"TooManyCycles"),
            StimFault::LineTooLong(n) => self.at_line(n, b"LineTooLong"),
            StimFault::Limit(name) => self.over_limit(name),
            StimFault::Failed | StimFault::NoMemory => unreachable!(),
        }
    }

    /// How a `sim` ends where a read of its stimulus fails. It takes no memory.
    pub fn read_failed(self) -> Ending
        ensures { result ≡ Ending.Refused Status.Fault (spec.read_line self.entry) }
    {
        let StimulusLines { read, .. } = self;
        Ending::Refused(Status::Fault, read)
    }

    /// The stimulus is refused at a line, with a code.
    fn at_line(self, number: u64, code: &[u8]) -> Ending
        requires { length code.now ≤ 13 }
        ensures { result ≡ Ending.Refused Status.BadStimulus (spec.stimulus_line self.entry number code.now) }
    {
        let StimulusLines { refusal, .. } = self;
        Ending::Refused(Status::BadStimulus, refusal.into_line(number, code))
    }

    /// The stimulus has more bytes than the limit.
    #[tactic(auto, using(crate::proofs::LimitLemmas::only_bytes))]
    fn over_limit(self, name: LimitName) -> Ending
        requires { is_stimulus_limit name ≡ true }
        ensures { result ≡ Ending.Refused Status.Limit (spec.limit_line name) }
    {
        let _name = name;
        let StimulusLines { limit, .. } = self;
        Ending::Refused(Status::Limit, limit)
    }
}
