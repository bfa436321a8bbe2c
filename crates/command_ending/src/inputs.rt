//! The files that a command reads.

ghost use Rattle.std.specs.Prelude.{◌≡◌, ◌+◌, nat_lt, length, IfOk, IfErr, OnOk};
ghost use Rattle.cov_port.specs.Taking.{IsFrontOf};
ghost use Rattle.cov_types.specs.Limits.{most as most_of};
ghost use Rattle.cov_types.specs.declared.limit.LimitName.TheVariants.{Files as files_limit};
ghost use Rattle.command_ending.specs.ErrorLines.{read_line as line_of_read};
ghost use Rattle.command_ending.specs.Opening.{IsOpened};
ghost use Rattle.command_ending.specs.Stops.{Stops, taking};

use crate::ending::Ending;
use crate::lines::{open_line, read_line};
use crate::status::Status;
use cov_port::{ByteText, Files, LimitName, TakeFault, take_file};
use std::alloc::Global;

/// Whether there are more files than a command reads.
pub fn are_too_many(names: &[&str]) -> bool
    ensures { result ≡ nat_lt (most_of files_limit) (length names.now) }
{
    names.len() as u64 > LimitName::Files.most()
}

/// Opens a file, and gives the line that is said where a read of it fails.
///
/// The lines of its faults are made before it is opened.
pub fn open_input<F: Files>(alloc: Global, files: &mut F, name: &str) -> Result<ByteText, Ending>
    ensures line { IfOk result (λ line. line ≡ line_of_read name.now) }
    ensures opened { OnOk result (IsOpened (F.held files.old) name.now (F.rest files.new)) }
    ensures ok_quiet { OnOk result (F.faults files.new ≡ F.faults files.old) }
    ensures err { IfErr result (Stops (taking name.now) (F.held files.old) (F.faults files.old) (F.faults files.new)) }
    ensures held { F.held files.new ≡ F.held files.old }
{
    let open_line = match open_line(alloc, name) {
        Ok(line) => line,
        Err(_) => return Err(Ending::NoMemory),
    };
    let read_line = match read_line(alloc, name) {
        Ok(line) => line,
        Err(_) => return Err(Ending::NoMemory),
    };
    match files.open(name) {
        Ok(()) => Ok(read_line),
        Err(_) => Err(Ending::Refused(Status::Fault, open_line)),
    }
}

/// The bytes of a file, or its first `most + 1` bytes where it has more.
///
/// The lines of its faults are made before it is opened.
pub fn take_input<F: Files>(
    alloc: Global,
    files: &mut F,
    name: &str,
    most: u64,
) -> Result<ByteText, Ending>
    ensures ok { IfOk result (λ text. IsFrontOf (F.held files.old) name.now (most + 1) text) }
    ensures ok_quiet { OnOk result (F.faults files.new ≡ F.faults files.old) }
    ensures err { IfErr result (Stops (taking name.now) (F.held files.old) (F.faults files.old) (F.faults files.new)) }
    ensures held { F.held files.new ≡ F.held files.old }
{
    let open_line = match open_line(alloc, name) {
        Ok(line) => line,
        Err(_) => return Err(Ending::NoMemory),
    };
    let read_line = match read_line(alloc, name) {
        Ok(line) => line,
        Err(_) => return Err(Ending::NoMemory),
    };
    match take_file(alloc, files, name, most) {
        Ok(text) => Ok(text),
        Err(TakeFault::OpenFailed) => Err(Ending::Refused(Status::Fault, open_line)),
        Err(TakeFault::ReadFailed) => Err(Ending::Refused(Status::Fault, read_line)),
        Err(TakeFault::NoMemory) => Err(Ending::NoMemory),
    }
}
