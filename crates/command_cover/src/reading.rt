//! The data files, read one after the other.

ghost use Rattle.std.specs.Prelude.{◌≡◌, map, Ok, Err, OnOk, IfErr, IfSome};
ghost use Rattle.cov_types.specs.declared.limit.LimitName.{LimitName};
ghost use Rattle.command_ending.specs.Answer.{over_limit as answer_of};
ghost use Rattle.command_ending.specs.Ending.{line_at, status_at};
ghost use Rattle.command_ending.specs.ErrorLines as spec;
ghost use Rattle.command_ending.specs.Opening.{IsOpened};
ghost use Rattle.command_ending.specs.Stops.{IsRefusal, Stops};
ghost use Rattle.command_ending.specs.declared.status.Status.TheVariants.{BadData};
ghost use Rattle.command_cover.specs.CoverReading.{all_arrivals, file_arrivals, refusal_of};
ghost use Rattle.command_cover.specs.Merge.{keeps_all};
ghost use Rattle.command_cover.specs.Sparing.{IsSparing, TakesFew, TakesFewAt};
ghost use Rattle.command_cover.specs.Steps.{continued, file_promise, files_promise};

use command_ending::{Ending, Status, bad_data, open_input, over_limit};
use cov_dat::{DataFault, DataReader, MergeFault, Merged, RecordStep};
use cov_port::{ByteText, Files};
use std::alloc::Global;

/// How a command ends for the fault of a data file's text.
fn refusal_of(alloc: Global, name: &str, fault: DataFault) -> Ending
    requires { fault ≡ DataFault.Failed → ⊥ }
    ensures { IsRefusal (λ answer. answer ≡ refusal_of name.now fault) result }
{
    match fault {
        DataFault::BadHeader(line) => bad_data(alloc, name, line, b"BadHeader"),
        DataFault::BadRecord(line) => bad_data(alloc, name, line, b"BadRecord"),
        DataFault::BadCount(line) => bad_data(alloc, name, line, b"BadCount"),
        DataFault::LineTooLong(line) => bad_data(alloc, name, line, b"LineTooLong"),
        DataFault::Limit(limit) => over_limit(alloc, limit),
        DataFault::Failed => Ending::NoMemory,
    }
}

/// How a command ends for a limit on merged keys.
fn limit_of(alloc: Global, fault: MergeFault) -> Ending
    ensures { IsRefusal (λ answer. (limit : LimitName) × (fault ≡ MergeFault.Limit limit) × (answer ≡ answer_of limit)) result }
{
    match fault {
        MergeFault::Limit(limit) => over_limit(alloc, limit),
        MergeFault::NoMemory => Ending::NoMemory,
    }
}

/// Adds the records of the open file, which has this name. The line is what is said where a read fails.
fn add_open<F: Files>(
    alloc: Global,
    files: &mut F,
    name: &str,
    line: ByteText,
    merged: &mut Merged,
) -> Result<(), Ending>
    requires opened { IsOpened (F.held files.old) name.now (F.rest files.old) }
    requires line { line ≡ spec.read_line name.now }
    ensures ok { OnOk result (IfSome (F.held files.old) (λ held. continued merged.old (file_arrivals keeps_all name.now (held name.now)) ≡ Ok merged.new)) }
    ensures ok_quiet { OnOk result (F.faults files.new ≡ F.faults files.old) }
    ensures err { IfErr result (Stops (file_promise merged.old name.now) (F.held files.old) (F.faults files.old) (F.faults files.new)) }
    ensures sparing { IfErr result
        (λ ending. status_at ending ≡ BadData → IfSome (F.rest files.old) (λ text. TakesFew name.now text (line_at ending) (F.rest files.new))) }
    ensures held { F.held files.new ≡ F.held files.old }
{
    let mut reader = match DataReader::new(alloc) {
        Ok(reader) => reader,
        Err(_) => return Err(Ending::NoMemory),
    };
    'records: loop {
        match reader.next_record(files) {
            Ok(RecordStep::Record) => match merged.add(reader.key(), reader.count()) {
                Ok(_) => {}
                Err(fault) => return Err(limit_of(alloc, fault)),
            },
            Ok(RecordStep::End) => return Ok(()),
            Err(DataFault::Failed) => return Err(Ending::Refused(Status::Fault, line)),
            Err(fault) => return Err(refusal_of(alloc, name, fault)),
        }
    }
}

/// Adds the records of one file, line by line.
fn add_file<F: Files>(
    alloc: Global,
    files: &mut F,
    name: &str,
    merged: &mut Merged,
) -> Result<(), Ending>
    ensures ok { OnOk result (IfSome (F.held files.old) (λ held. continued merged.old (file_arrivals keeps_all name.now (held name.now)) ≡ Ok merged.new)) }
    ensures ok_quiet { OnOk result (F.faults files.new ≡ F.faults files.old) }
    ensures err { IfErr result (Stops (file_promise merged.old name.now) (F.held files.old) (F.faults files.old) (F.faults files.new)) }
    ensures sparing { IfErr result
        (λ ending. status_at ending ≡ BadData → IfSome (F.held files.old) (TakesFewAt name.now (line_at ending) (F.rest files.new))) }
    ensures held { F.held files.new ≡ F.held files.old }
{
    match open_input(alloc, files, name) {
        Ok(line) => add_open(alloc, files, name, line, merged),
        Err(ending) => Err(ending),
    }
}

/// Adds the records of all files, in order.
pub(crate) fn add_files<F: Files>(
    alloc: Global,
    files: &mut F,
    names: &[&str],
    merged: &mut Merged,
) -> Result<(), Ending>
    ensures ok { OnOk result (IfSome (F.held files.old)
        (λ held. continued merged.old (all_arrivals held keeps_all (map (λ name. name.now) names.now)) ≡ Ok merged.new)) }
    ensures ok_quiet { OnOk result (F.faults files.new ≡ F.faults files.old) }
    ensures err { IfErr result (Stops (files_promise merged.old (map (λ name. name.now) names.now)) (F.held files.old) (F.faults files.old)
        (F.faults files.new)) }
    ensures sparing { IfErr result
        (λ ending. IsSparing (map (λ name. name.now) names.now) (status_at ending) (line_at ending) (F.rest files.new) (F.held files.old)) }
    ensures held { F.held files.new ≡ F.held files.old }
{
    'names: for name in names {
        match add_file(alloc, files, name, merged) {
            Ok(()) => {}
            Err(ending) => return Err(ending),
        }
    }
    Ok(())
}
