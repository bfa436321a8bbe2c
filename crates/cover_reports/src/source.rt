//! The sources of annotated files.

ghost use Rattle.std.specs.Prelude.{◌≡◌, ◌≤◌, length, Some, IfOk, IfErr, IfSome, OnOk};
ghost use Rattle.cov_types.specs.Limits.{most};
ghost use Rattle.cov_types.specs.declared.limit.LimitName.TheVariants.{SourceBytes};
ghost use Rattle.command_ending.specs.Stops.{Stops};
ghost use Rattle.cover_reports.specs.Sources.{source_promise};

use command_ending::{Ending, over_limit, take_input};
use cov_port::{ByteText, Files, LimitName};
use std::alloc::Global;

/// The whole of a source, where so many bytes are left to it and those behind it.
pub fn take_source<F: Files>(
    alloc: Global,
    files: &mut F,
    name: &str,
    left: u64,
) -> Result<ByteText, Ending>
    requires { left ≤ most SourceBytes }
    ensures ok { IfOk result (λ text. IfSome (F.held files.old) (λ held. held name.now ≡ Some text)) }
    ensures within { IfOk result (λ text. length text ≤ left) }
    ensures ok_quiet { OnOk result (F.faults files.new ≡ F.faults files.old) }
    ensures err { IfErr result (Stops (source_promise left name.now) (F.held files.old) (F.faults files.old) (F.faults files.new)) }
    ensures held { F.held files.new ≡ F.held files.old }
{
    match take_input(alloc, files, name, left) {
        Ok(text) if text.len() as u64 > left => Err(over_limit(alloc, LimitName::SourceBytes)),
        Ok(text) => Ok(text),
        Err(ending) => Err(ending),
    }
}
