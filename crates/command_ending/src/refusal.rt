//! Endings that refuse what a file holds, or a limit. Each is `NoMemory` where its line can't be made.

ghost use Rattle.std.specs.Prelude.{◌≡◌};
ghost use Rattle.command_ending.specs.Answer as answer;
ghost use Rattle.command_ending.specs.ErrorLines as spec;
ghost use Rattle.command_ending.specs.Stops.{IsRefusal};
ghost use Rattle.command_ending.specs.declared.status.Status.TheVariants.{BadData};

use crate::ending::Ending;
use crate::lines::{byte_line, data_line, design_line, limit_line};
use crate::status::Status;
use cov_port::{LimitName, Place};
use std::alloc::Global;

/// This limit is passed.
pub fn over_limit(alloc: Global, name: LimitName) -> Ending
    ensures { IsRefusal (λ a. a ≡ answer.over_limit name) result }
{
    match limit_line(alloc, name) {
        Ok(line) => Ending::Refused(Status::Limit, line),
        Err(_) => Ending::NoMemory,
    }
}

/// A design is refused at a place of a file, with a code.
pub fn bad_design(alloc: Global, name: &str, place: Place, code: &[u8]) -> Ending
    ensures { IsRefusal (λ a. a ≡ answer.bad_design name.now place code.now) result }
{
    match design_line(alloc, name, place, code) {
        Ok(line) => Ending::Refused(Status::BadDesign, line),
        Err(_) => Ending::NoMemory,
    }
}

/// A data file is refused at a line, with a code.
pub fn bad_data(alloc: Global, name: &str, number: u64, code: &[u8]) -> Ending
    ensures { IsRefusal (λ a. a ≡ answer.bad_data name.now number code.now) result }
{
    match data_line(alloc, name, number, code) {
        Ok(line) => Ending::Refused(Status::BadData, line),
        Err(_) => Ending::NoMemory,
    }
}

/// A design file is refused at a byte, counted from 0, with a code.
pub fn bad_design_file(alloc: Global, name: &str, number: u64, code: &[u8]) -> Ending
    ensures { IsRefusal (λ a. a ≡ answer.refused_with BadData (spec.byte_line name.now number code.now)) result }
{
    match byte_line(alloc, name, number, code) {
        Ok(line) => Ending::Refused(Status::BadData, line),
        Err(_) => Ending::NoMemory,
    }
}
