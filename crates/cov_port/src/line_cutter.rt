ghost use Rattle.std.specs.Prelude.{◌≡◌, ◌≤◌, ◌<◌, ◌+◌, ◌-◌, [], ◌++◌, true, None, Some, Ok, Err, length, take, drop, slice_range};
ghost use Rattle.std.specs.Prelude.{vec_len, IfOk, IfErr, IfSome, IfNone, IsErrOf, OnOk, OnErr};
ghost use Rattle.cov_port.specs.Cutting.{FailedBy, GivesTold, IsGiven, KeepsLeft, begins_long, fresh_cutter, has_no_feed, left_of};
ghost use Rattle.cov_port.specs.Files.{ReadsRose};
ghost use Rattle.cov_port.specs.Filling.{Fills, IsFeedAt, step_of};
ghost use Rattle.cov_port.specs.Lines.{lines_of};
ghost use Rattle.cov_port.specs.declared.line_step.CutFault.{CutFault};

use crate::files::{FileFault, Files};
use crate::line_step::{CutFault, LineStep};
use cov_types::NoMemory;
use memchr::memchr;
use std::alloc::Global;
use std::marker::Model;

/// The number of bytes of the buffer. So a line with its line feed has at most as many.
const BUFFER_BYTES: usize = 65_536;

/// Takes the lines of an open file one after the other, through one buffer.
///
/// Contracts see the bytes that it has read and not given, the line that it gave last, and the
/// fault that it has met, which every later call answers again.
#[derive(Drop)]
pub struct LineCutter {
    buffer: Vec<u8>,
    // Where the line that was given last stands.
    line_start: usize,
    line_end: usize,
    // Where the bytes stand that were read and not given.
    start: usize,
    end: usize,
    fault: Option<CutFault>,
}

impl Model for LineCutter {
    ghost use Rattle.std.specs.Prelude.{◌≡◌, ◌≤◌, vec_len, slice_range};
    ghost use Rattle.cov_port.specs.Cutting.{Cutter};

    ghost Value = { Cutter };

    ghost view = { λ c. record {
      ahead = slice_range c.buffer.items c.start c.end;
      line = slice_range c.buffer.items c.line_start c.line_end;
      fault = c.fault;
    } };

    ghost invariant = { λ c. (vec_len c.buffer ≡ 65536)
        × (c.line_start ≤ c.line_end) × (c.line_end ≤ 65536)
        × (c.start ≤ c.end) × (c.end ≤ 65536) };
}

impl LineCutter {
    /// A cutter that has read nothing. It takes a buffer of 65,536 bytes.
    pub fn new(alloc: Global) -> Result<LineCutter, NoMemory>
        ensures { IfOk result (λ c. c ≡ fresh_cutter) }
    {
        Ok(LineCutter {
            buffer: vec![in alloc; 0u8; BUFFER_BYTES]?,
            line_start: 0,
            line_end: 0,
            start: 0,
            end: 0,
            fault: None,
        })
    }

    /// The line that was given last, without its line feed; nothing before the first, at the end and after a fault.
    pub fn line(&self) -> &[u8]
        ensures { result.now ≡ self.now.line }
    {
        &self.buffer[self.line_start..self.line_end]
    }

    /// Gives the next line of the open file, or tells that its end is reached. It takes no memory.
    pub fn next_line<F: Files>(&mut self, files: &mut F) -> Result<LineStep, CutFault>
        // The lines of what is left, one after the other.
        ensures line { IfOk result (λ step. GivesTold step self.new.line (left_of self.old (F.rest files.old)) (left_of self.new (F.rest files.new))) }
        ensures given { IfOk result (λ step. IsGiven step self.new) }
        ensures within { length self.new.ahead ≤ 65536 }

        // A line that is too long, of which nothing is taken off.
        ensures long { IsErrOf result CutFault.TooLong → self.old.fault ≡ None → IfSome (left_of self.old (F.rest files.old))
            (λ left. begins_long (lines_of left) ≡ true) }
        ensures long_left { IsErrOf result CutFault.TooLong → KeepsLeft (left_of self.old (F.rest files.old)) (left_of self.new (F.rest files.new)) }

        // A fault is answered again by every later call, and then no call is made on the files.
        ensures stays { IfErr result (λ fault. self.new.fault ≡ Some fault) }
        ensures no_line { OnErr result (self.new.line ≡ []) }
        ensures again { IfSome self.old.fault (λ fault. (result ≡ Err fault) × (self.new.ahead ≡ self.old.ahead) × (files.new ≡ files.old)) }

        // Each fault of a call has its cause, and nothing else raises a number.
        ensures held { F.held files.new ≡ F.held files.old }
        ensures ok_quiet { OnOk result (F.faults files.new ≡ F.faults files.old) }
        ensures long_quiet { IsErrOf result CutFault.TooLong → F.faults files.new ≡ F.faults files.old }
        ensures failed { IsErrOf result CutFault.Failed → FailedBy self.old.fault (F.faults files.old) (F.faults files.new) }
    {
        if let Some(fault) = self.fault {
            self.refuse(fault);
            return Err(fault);
        }
        match self.seek(files) {
            Ok(Some(at)) => {
                self.give(at);
                Ok(LineStep::Line)
            }
            Ok(None) => Ok(self.give_rest()),
            Err(fault) => {
                self.refuse(fault);
                Err(fault)
            }
        }
    }

    /// Reads until a line feed is there, and tells its place; nothing at the end of the file.
    fn seek<F: Files>(&mut self, files: &mut F) -> Result<Option<usize>, CutFault>
        ensures left { IfOk result (λ _. KeepsLeft (left_of self.old (F.rest files.old)) (left_of self.new (F.rest files.new))) }
        ensures feed { IfOk result (λ found. IfSome found (λ at. IsFeedAt self.new.ahead at)) }
        ensures ends { IfOk result (λ found. IfNone found
            ((has_no_feed self.new.ahead ≡ true) × (length self.new.ahead < 65536) × IfSome (left_of self.old (F.rest files.old))
            (λ left. left ≡ self.new.ahead))) }
        ensures within { length self.new.ahead ≤ 65536 }
        ensures long { IsErrOf result CutFault.TooLong → (has_no_feed self.new.ahead ≡ true) × (length self.new.ahead ≡ 65536) }
        ensures long_left { IsErrOf result CutFault.TooLong → KeepsLeft (left_of self.old (F.rest files.old)) (left_of self.new (F.rest files.new)) }
        ensures fault { self.new.fault ≡ self.old.fault }
        ensures held { F.held files.new ≡ F.held files.old }
        ensures ok_quiet { OnOk result (F.faults files.new ≡ F.faults files.old) }
        ensures long_quiet { IsErrOf result CutFault.TooLong → F.faults files.new ≡ F.faults files.old }
        ensures failed { IsErrOf result CutFault.Failed → ReadsRose (F.faults files.old) (F.faults files.new) }
    {
        let mut clear = 0;
        'fillings: loop {
            if let Some(at) = feed_from(self.ahead(), clear) {
                return Ok(Some(at));
            }
            clear = self.ahead().len();
            if clear >= BUFFER_BYTES {
                return Err(CutFault::TooLong);
            }
            match self.fill(files) {
                Ok(0) => return Ok(None),
                Ok(_) => {}
                Err(_) => return Err(CutFault::Failed),
            }
        }
    }

    /// Moves the bytes that were not given to the front, and reads once behind them.
    fn fill<F: Files>(&mut self, files: &mut F) -> Result<usize, FileFault>
        requires { length self.old.ahead < 65536 }
        ensures ok { IfOk result (λ n. Fills n self.old.ahead self.new.ahead (F.rest files.old) (F.rest files.new)) }
        ensures within { length self.new.ahead ≤ 65536 }
        ensures fault { self.new.fault ≡ self.old.fault }
        ensures held { F.held files.new ≡ F.held files.old }
        ensures ok_quiet { OnOk result (F.faults files.new ≡ F.faults files.old) }
        ensures failed { OnErr result (ReadsRose (F.faults files.old) (F.faults files.new)) }
    {
        move_down(&mut self.buffer, self.start, self.end);
        self.end -= self.start;
        self.start = 0;
        self.line_start = 0;
        self.line_end = 0;
        match read_behind(files, self.buffer.as_mut_slice(), self.end) {
            Ok(count) => {
                self.end += count;
                Ok(count)
            }
            Err(fault) => Err(fault),
        }
    }

    /// The bytes that were read and not given.
    fn ahead(&self) -> &[u8]
        ensures value { result.now ≡ self.now.ahead }
        ensures within { length result.now ≤ 65536 }
    {
        &self.buffer[self.start..self.end]
    }

    /// Gives the bytes before this line feed as a line.
    fn give(&mut self, at: usize)
        requires { at < length self.old.ahead }
        ensures { self.new ≡ record self.old { ahead = drop (at + 1) self.old.ahead; line = take at self.old.ahead } }
    {
        self.line_start = self.start;
        self.line_end = self.start + at;
        self.start += at + 1;
    }

    /// Gives the bytes that are left as the last line, if there are any.
    fn give_rest(&mut self) -> LineStep
        ensures value { self.new ≡ record self.old { ahead = []; line = self.old.ahead } }
        ensures step { result ≡ step_of self.old.ahead }
    {
        self.line_start = self.start;
        self.line_end = self.end;
        self.start = self.end;
        if self.line_start == self.line_end {
            return LineStep::End;
        }
        LineStep::LastLine
    }

    /// Keeps the fault for every later call.
    fn refuse(&mut self, fault: CutFault)
        ensures { self.new ≡ record self.old { line = []; fault = Some fault } }
    {
        self.line_start = self.line_end;
        self.fault = Some(fault);
    }
}

/// The place of the first line feed, of which there is none among the first bytes, as many as are clear.
fn feed_from(bytes: &[u8], clear: usize) -> Option<usize>
    requires within { clear ≤ length bytes.now }
    requires clear { has_no_feed (take clear bytes.now) ≡ true }
    ensures feed { IfSome result (λ at. IsFeedAt bytes.now at) }
    ensures none { IfNone result (has_no_feed bytes.now ≡ true) }
{
    let at = memchr(b'\n', &bytes[clear..])?;
    Some(clear + at)
}

/// Moves these bytes of the buffer to its front.
fn move_down(buffer: &mut Vec<u8>, start: usize, end: usize)
    requires order { start ≤ end }
    requires within { end ≤ vec_len buffer.old }
    ensures len { vec_len buffer.new ≡ vec_len buffer.old }
    ensures front { take (end - start) buffer.new.items ≡ slice_range buffer.old.items start end }
{
    if start > 0 {
        buffer.as_mut_slice().copy_within(start..end, 0);
    }
}

/// Reads once into the buffer from this place on.
fn read_behind<F: Files>(files: &mut F, buffer: &mut [u8], end: usize) -> Result<usize, FileFault>
    requires { end < length buffer.old }
    ensures len { length buffer.new ≡ length buffer.old }
    ensures bound { IfOk result (λ n. end + n ≤ length buffer.old) }
    ensures front { take end buffer.new ≡ take end buffer.old }
    ensures bytes { IfOk result (λ n. Fills n (take end buffer.old) (take (end + n) buffer.new) (F.rest files.old) (F.rest files.new)) }
    ensures held { F.held files.new ≡ F.held files.old }
    ensures ok_quiet { OnOk result (F.faults files.new ≡ F.faults files.old) }
    ensures failed { OnErr result (ReadsRose (F.faults files.old) (F.faults files.new)) }
{
    files.read(&mut buffer[end..])
}
