ghost use Rattle.std.specs.Prelude.{◌≡◌, ◌≤◌, ◌<◌, ◌+◌, [], ◌++◌, List, ℕ, true, None, Some, Ok, Err, length, IfOk, IfErr, IfSome, IsErrOf, OnOk, OnErr};
ghost use Rattle.cov_port.specs.Files.{ReadsRose};
ghost use Rattle.cov_dat.specs.Streaming.{FaultOf, FirstFault, HasKey, IsFileFault, IsFrugal, ReadFailedBy, StandsIn, TakesBytes};
ghost use Rattle.cov_dat.specs.Streaming.{TellsLeft, fresh_reader, line_of, reading_left};
ghost use Rattle.cov_port.specs.Lines.{bytes_of};
ghost use Rattle.cov_dat.specs.DataLine.{says_within};
ghost use Rattle.cov_dat.specs.Reading.{nothing_read, only_fault, reading_from};
ghost use Rattle.cov_dat.specs.Taking.{ComesTold, IsNext, IsStory, KeyIf, KeyOf, Moves, NamesLine, reading_here, seen_read};
ghost use Rattle.cov_dat.specs.declared.key_place.LineStory.TheVariants as story;
ghost use Rattle.cov_dat.specs.declared.fault.DataFault.TheVariants as fault;

use crate::fault::DataFault;
use crate::key_place::LineStory;
use crate::line::{long_line, read_place};
use crate::record_step::RecordStep;
use cov_port::{CutFault, Files, LineCutter, LineStep, NoMemory, line_bytes};
use std::alloc::Global;
use std::marker::Model;

/// Reads the records of an open data file one after the other, line by line.
///
/// Contracts see its cutter, where in the file it stands, the last record and the fault that it
/// has met, which every later call answers again.
#[derive(Drop)]
pub struct DataReader {
    cutter: LineCutter,
    // The number of the next line, from 1, and the bytes before it.
    number: u64,
    bytes: u64,
    // Where in the cutter's line the key of the last record stands.
    key_start: usize,
    key_end: usize,
    count: u64,
    fault: Option<DataFault>,
}

impl Model for DataReader {
    ghost use Rattle.std.specs.Prelude.{◌≤◌, length, slice_range};
    ghost use Rattle.cov_dat.specs.Position.{IsInFile};
    ghost use Rattle.cov_dat.specs.Streaming.{FollowsFault, ReaderState};

    ghost Value = { ReaderState };

    ghost view = { λ r. record {
      cutter = r.cutter;
      number = r.number;
      bytes = r.bytes;
      key = slice_range r.cutter.line r.key_start r.key_end;
      count = r.count;
      fault = r.fault;
    } };

    ghost invariant = { λ r. IsInFile r.number r.bytes × (r.key_start ≤ r.key_end) × (r.key_end ≤ length r.cutter.line) × FollowsFault r.fault r.cutter.fault };
}

impl DataReader {
    /// A reader that has read nothing. It takes a buffer of 65,536 bytes.
    pub fn new(alloc: Global) -> Result<DataReader, NoMemory>
        ensures { IfOk result (λ r. r ≡ fresh_reader) }
    {
        Ok(DataReader {
            cutter: LineCutter::new(alloc)?,
            number: 1,
            bytes: 0,
            key_start: 0,
            key_end: 0,
            count: 0,
            fault: None,
        })
    }

    /// The key of the last record; nothing before the first, at the end and after a fault.
    pub fn key(&self) -> &[u8]
        ensures { result.now ≡ self.now.key }
    {
        &self.cutter.line()[self.key_start..self.key_end]
    }

    /// The count of the last record; 0 before the first, at the end and after a fault.
    pub fn count(&self) -> u64
        ensures { result ≡ self.now.count }
    {
        self.count
    }

    /// Reads the next record of the open file, or tells that its end is reached. It takes no memory.
    pub fn next_record<F: Files>(&mut self, files: &mut F) -> Result<RecordStep, DataFault>
        // The records of what is left, one after the other, and the first fault.
        ensures step { IfOk result (λ step. TellsLeft step self.new.key self.new.count (reading_left self.old (F.rest files.old))
            (reading_left self.new (F.rest files.new))) }
        ensures key { IfOk result (λ step. HasKey step self.new.key self.new.count) }
        ensures fault { IfErr result (λ flaw. FaultOf (reading_left self.old (F.rest files.old)) flaw) }
        ensures names { IfErr result (λ flaw. FirstFault self.old.fault flaw) }
        ensures goes_on { OnOk result (self.new.fault ≡ None) }

        // Each record takes bytes off, and no file gives more than these: so it ends, also where its bytes aren't told.
        ensures moves { IfOk result (λ step. TakesBytes step self.old.bytes self.new.bytes) }
        ensures within { self.new.bytes ≤ 4294967296 }

        // A fault is answered again by every later call, and then no call is made on the files.
        ensures stays { IfErr result (λ flaw. self.new.fault ≡ Some flaw) }
        ensures nothing { OnErr result ((self.new.key ≡ []) × (self.new.count ≡ 0)) }
        ensures again { IfSome self.old.fault (λ flaw. (result ≡ Err flaw) × (files.new ≡ files.old)) }

        // How much is taken of a file whose bytes are told.
        ensures stands { OnOk result ((text : List ℕ) → StandsIn text self.old (F.rest files.old) → StandsIn text self.new (F.rest files.new)) }
        ensures frugal { IfErr result (λ flaw. (text : List ℕ) → StandsIn text self.old (F.rest files.old) → IfSome (line_of flaw)
            (λ n. IsFrugal text (F.rest files.new) n)) }

        // Each fault of a call has its cause, and nothing else raises a number.
        ensures held { F.held files.new ≡ F.held files.old }
        ensures ok_quiet { OnOk result (F.faults files.new ≡ F.faults files.old) }
        ensures fault_quiet { IfErr result (λ flaw. (flaw ≡ fault.Failed → ⊥) → F.faults files.new ≡ F.faults files.old) }
        ensures failed { IsErrOf result fault.Failed → ReadFailedBy self.old.fault (F.faults files.old) (F.faults files.new) }
    {
        if let Some(fault) = self.fault {
            self.forget();
            return Err(fault);
        }
        'lines: loop {
            match self.take_line(files) {
                Ok(LineStory::Nothing) => {}
                Ok(LineStory::Record) => return Ok(RecordStep::Record),
                Ok(LineStory::End) => return Ok(RecordStep::End),
                Err(fault) => return Err(fault),
            }
        }
    }

    /// Tells no record from here on.
    fn forget(&mut self)
        ensures { self.new ≡ record self.old { key = []; count = 0 } }
    {
        self.key_start = 0;
        self.key_end = 0;
        self.count = 0;
    }

    /// Takes one line.
    fn take_line<F: Files>(&mut self, files: &mut F) -> Result<LineStory, DataFault>
        requires { self.old.fault ≡ None }
        ensures comes { IfOk result (λ story. ComesTold story self.new.key self.new.count (reading_here self.old (F.rest files.old))
            (reading_here self.new (F.rest files.new))) }
        ensures key { IfOk result (λ story. KeyOf story self.new.key self.new.count) }
        ensures nothing { OnErr result ((self.new.key ≡ []) × (self.new.count ≡ 0)) }
        ensures fault { IfErr result (λ flaw. FaultOf (reading_here self.old (F.rest files.old)) flaw) }
        ensures names { IfErr result IsFileFault }
        ensures goes_on { OnOk result (self.new.fault ≡ None) }
        ensures stays { IfErr result (λ flaw. self.new.fault ≡ Some flaw) }
        ensures moves { IfOk result (λ story. Moves story self.old.bytes self.new.bytes) }
        ensures within { self.new.bytes ≤ 4294967296 }
        ensures stands { OnOk result ((text : List ℕ) → StandsIn text self.old (F.rest files.old) → StandsIn text self.new (F.rest files.new)) }
        ensures frugal { IfErr result (λ flaw. (text : List ℕ) → StandsIn text self.old (F.rest files.old) → IfSome (line_of flaw)
            (λ n. IsFrugal text (F.rest files.new) n)) }
        ensures held { F.held files.new ≡ F.held files.old }
        ensures ok_quiet { OnOk result (F.faults files.new ≡ F.faults files.old) }
        ensures fault_quiet { IfErr result (λ flaw. (flaw ≡ fault.Failed → ⊥) → F.faults files.new ≡ F.faults files.old) }
        ensures failed { IsErrOf result fault.Failed → ReadsRose (F.faults files.old) (F.faults files.new) }
    {
        self.key_start = 0;
        self.key_end = 0;
        self.count = 0;
        match self.cutter.next_line(files) {
            Ok(LineStep::Line) => self.tell(true),
            Ok(LineStep::LastLine) => self.tell(false),
            Ok(LineStep::End) => self.end(),
            Err(CutFault::Failed) => {
                self.fault = Some(DataFault::Failed);
                Err(DataFault::Failed)
            }
            Err(CutFault::TooLong) => {
                let fault = long_line(self.number, self.bytes);
                self.fault = Some(fault);
                Err(fault)
            }
        }
    }

    /// Tells what the line that the cutter gave comes to.
    fn tell(&mut self, ended: bool) -> Result<LineStory, DataFault>
        requires short { length self.old.cutter.line ≤ 65535 }
        requires some { 0 < bytes_of (self.old.cutter.line, ended) }
        requires no_record { (self.old.key ≡ []) × (self.old.count ≡ 0) }
        requires no_fault { self.old.fault ≡ None }
        ensures story { IfOk result (λ story. IsStory story self.new.key self.new.count
            (says_within (self.old.bytes + bytes_of (self.old.cutter.line, ended)) self.old.number (self.old.cutter.line, ended))) }
        ensures moved { OnOk result (IsNext (bytes_of (self.old.cutter.line, ended)) self.old self.new) }
        ensures within { self.new.bytes ≤ 4294967296 }
        ensures fault { IfErr result (λ flaw. Err flaw ≡ says_within (self.old.bytes + bytes_of (self.old.cutter.line, ended)) self.old.number
            (self.old.cutter.line, ended)) }
        ensures err { IfErr result (λ flaw. self.new ≡ record self.old { fault = Some flaw }) }
        ensures line { IfErr result (λ flaw. NamesLine flaw self.old.number) }
        ensures no_failure { IsErrOf result fault.Failed → ⊥ }
    {
        match self.read(ended) {
            Ok(true) => Ok(LineStory::Record),
            Ok(false) => Ok(LineStory::Nothing),
            Err(fault) => {
                self.fault = Some(fault);
                Err(fault)
            }
        }
    }

    /// Reads the line that the cutter gave, and tells whether it is a record.
    fn read(&mut self, ended: bool) -> Result<bool, DataFault>
        requires short { length self.old.cutter.line ≤ 65535 }
        requires some { 0 < bytes_of (self.old.cutter.line, ended) }
        requires no_record { (self.old.key ≡ []) × (self.old.count ≡ 0) }
        ensures says { seen_read self.new.key self.new.count result ≡ says_within (self.old.bytes + bytes_of (self.old.cutter.line, ended)) self.old.number
            (self.old.cutter.line, ended) }
        ensures key { IfOk result (λ found. KeyIf found self.new.key self.new.count) }
        ensures moved { OnOk result (IsNext (bytes_of (self.old.cutter.line, ended)) self.old self.new) }
        ensures within { self.new.bytes ≤ 4294967296 }
        ensures err { OnErr result (self.new ≡ self.old) }
        ensures line { IfErr result (λ flaw. NamesLine flaw self.old.number) }
        ensures no_failure { IsErrOf result fault.Failed → ⊥ }
    {
        let bytes = self.bytes + line_bytes(self.cutter.line(), ended);
        let said = match read_place(self.number, bytes, self.cutter.line(), ended) {
            Ok(said) => said,
            Err(fault) => return Err(fault),
        };
        self.number += 1;
        self.bytes = bytes;
        match said {
            Some(place) => {
                self.key_start = 3;
                self.key_end = place.end;
                self.count = place.count;
                Ok(true)
            }
            None => Ok(false),
        }
    }

    /// What the end of the file comes to: a file without a first line lacks the header.
    fn end(&mut self) -> Result<LineStory, DataFault>
        requires { self.old.fault ≡ None }
        ensures ok { IfOk result (λ comes. (comes ≡ story.End) × (reading_from self.old.number self.old.bytes [] ≡ nothing_read) × (self.new ≡ self.old)) }
        ensures err { IfErr result (λ flaw. (reading_from self.old.number self.old.bytes [] ≡ only_fault flaw) ×
            (self.new ≡ record self.old { fault = Some flaw })) }
        ensures line { IfErr result (λ flaw. NamesLine flaw self.old.number) }
        ensures names { IfErr result IsFileFault }
        ensures within { self.new.bytes ≤ 4294967296 }
        ensures no_failure { IsErrOf result fault.Failed → ⊥ }
    {
        if self.number == 1 {
            self.fault = Some(DataFault::BadHeader(1));
            return Err(DataFault::BadHeader(1));
        }
        Ok(LineStory::End)
    }
}
