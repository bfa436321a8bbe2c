//! The data files, read one after the other.

ghost use Rattle.std.specs.Prelude.{◌≡◌, map, Ok, OnOk, IfErr, IfSome, option_copied};
ghost use Rattle.command_ending.specs.Ending.{line_at, status_at};
ghost use Rattle.command_ending.specs.ErrorLines as spec;
ghost use Rattle.command_ending.specs.Opening.{IsOpened};
ghost use Rattle.command_ending.specs.Stops.{IsRefusal, Stops};
ghost use Rattle.command_ending.specs.declared.status.Status.TheVariants.{BadData};
ghost use Rattle.command_cover.specs.CoverReading.{all_arrivals, file_arrivals, refusal_of};
ghost use Rattle.command_cover.specs.Sparing.{IsSparing, TakesFew, TakesFewAt};
ghost use Rattle.cover_answer.specs.Gathering.{keeps};
ghost use Rattle.cover_gather.specs.Steps.{continued, file_promise, files_promise};

use crate::adding::{add_record, end_file};
use crate::tally::Tally;
use command_ending::{Ending, Status, bad_data, open_input, over_limit};
use cov_dat::{DataFault, DataReader, RecordStep};
use cov_port::{ByteText, Files};
use std::alloc::Global;

/// How a command ends for the fault of a data file's text.
fn refusal_of(alloc: Global, name: &str, fault: DataFault) -> Ending
    requires { fault ≡ DataFault.Failed → ⊥ }
    ensures { IsRefusal (λ answer. answer ≡ refusal_of name.now fault) result }
{
    match fault {
        DataFault::BadHeader(line) => bad_data(alloc, name, line, b"BadHeader"),
        DataFault::BadRecord(line) => bad_data(alloc, name, line, b"BadRecord"),
        DataFault::BadCount(line) => bad_data(alloc, name, line, b"BadCount"),
        DataFault::LineTooLong(line) => bad_data(alloc, name, line, b"LineTooLong"),
        DataFault::Limit(limit) => over_limit(alloc, limit),
        DataFault::Failed => Ending::NoMemory,
    }
}

/// Adds the kept records of the open file, which has this name. The line is what is said where a read fails.
fn add_open<F: Files>(
    alloc: Global,
    files: &mut F,
    name: &str,
    line: ByteText,
    filter: Option<&str>,
    ranks: bool,
    tally: &mut Tally,
) -> Result<(), Ending>
    requires opened { IsOpened (F.held files.old) name.now (F.rest files.old) }
    requires line { line ≡ spec.read_line name.now }
    ensures ok { OnOk result (IfSome (F.held files.old)
        (λ held. continued ranks tally.old (file_arrivals (keeps (option_copied filter.entry)) name.now (held name.now)) ≡ Ok tally.new)) }
    ensures ok_quiet { OnOk result (F.faults files.new ≡ F.faults files.old) }
    ensures err { IfErr result (Stops (file_promise (keeps (option_copied filter.entry)) ranks tally.old name.now) (F.held files.old) (F.faults files.old)
        (F.faults files.new)) }
    ensures sparing { IfErr result
        (λ ending. status_at ending ≡ BadData → IfSome (F.rest files.old) (λ text. TakesFew name.now text (line_at ending) (F.rest files.new))) }
    ensures held { F.held files.new ≡ F.held files.old }
{
    let mut reader = match DataReader::new(alloc) {
        Ok(reader) => reader,
        Err(_) => return Err(Ending::NoMemory),
    };
    'records: loop {
        match reader.next_record(files) {
            Ok(RecordStep::Record) => {
                match add_record(alloc, filter, ranks, reader.key(), reader.count(), tally) {
                    Ok(()) => {}
                    Err(ending) => return Err(ending),
                }
            }
            Ok(RecordStep::End) => return end_file(alloc, ranks, tally),
            Err(DataFault::Failed) => return Err(Ending::Refused(Status::Fault, line)),
            Err(fault) => return Err(refusal_of(alloc, name, fault)),
        }
    }
}

/// Adds the kept records of one file, line by line.
fn add_file<F: Files>(
    alloc: Global,
    files: &mut F,
    name: &str,
    filter: Option<&str>,
    ranks: bool,
    tally: &mut Tally,
) -> Result<(), Ending>
    ensures ok { OnOk result (IfSome (F.held files.old)
        (λ held. continued ranks tally.old (file_arrivals (keeps (option_copied filter.entry)) name.now (held name.now)) ≡ Ok tally.new)) }
    ensures ok_quiet { OnOk result (F.faults files.new ≡ F.faults files.old) }
    ensures err { IfErr result (Stops (file_promise (keeps (option_copied filter.entry)) ranks tally.old name.now) (F.held files.old) (F.faults files.old)
        (F.faults files.new)) }
    ensures sparing { IfErr result
        (λ ending. status_at ending ≡ BadData → IfSome (F.held files.old) (TakesFewAt name.now (line_at ending) (F.rest files.new))) }
    ensures held { F.held files.new ≡ F.held files.old }
{
    match open_input(alloc, files, name) {
        Ok(line) => add_open(alloc, files, name, line, filter, ranks, tally),
        Err(ending) => Err(ending),
    }
}

/// Adds the kept records of all files, in order.
pub(crate) fn add_files<F: Files>(
    alloc: Global,
    files: &mut F,
    names: &[&str],
    filter: Option<&str>,
    ranks: bool,
    tally: &mut Tally,
) -> Result<(), Ending>
    ensures ok { OnOk result (IfSome (F.held files.old)
        (λ held. continued ranks tally.old (all_arrivals held (keeps (option_copied filter.entry)) (map (λ name. name.now) names.now)) ≡ Ok tally.new)) }
    ensures ok_quiet { OnOk result (F.faults files.new ≡ F.faults files.old) }
    ensures err { IfErr result (Stops (files_promise (keeps (option_copied filter.entry)) ranks tally.old (map (λ name. name.now) names.now)) (F.held files.old)
        (F.faults files.old) (F.faults files.new)) }
    ensures sparing { IfErr result
        (λ ending. IsSparing (map (λ name. name.now) names.now) (status_at ending) (line_at ending) (F.rest files.new) (F.held files.old)) }
    ensures held { F.held files.new ≡ F.held files.old }
{
    'names: for name in names {
        match add_file(alloc, files, name, filter, ranks, tally) {
            Ok(()) => {}
            Err(ending) => return Err(ending),
        }
    }
    Ok(())
}
