//! Design files that are refused.

ghost use Rattle.std.specs.Prelude.{◌≡◌, IsSomeAnd};
ghost use Rattle.command_ending.specs.Stops.{IsRefusal};
ghost use Rattle.sim_answer.specs.Refusals.{design_refusal};
ghost use Rattle.sim_files.specs.DesignFaults.{flaw_of, flow_flaw};

use command_ending::{Ending, bad_design_file};
use cvd_file::CvdFault;
use flow_check::FlowFault;
use std::alloc::Global;

/// How a `sim` ends for a fault of its design's text.
pub(crate) fn design_ending(alloc: Global, name: &str, fault: CvdFault) -> Ending
    ensures { IsRefusal (λ answer. IsSomeAnd (flaw_of fault) (λ flaw. answer ≡ design_refusal name.now flaw)) result }
{
    match fault {
        CvdFault::NotCvd(byte) => bad_design_file(alloc, name, byte, b"NotCvd"),
        CvdFault::Version(byte) => bad_design_file(alloc, name, byte, b"Version"),
        CvdFault::BadToken(byte) => bad_design_file(alloc, name, byte, b"BadToken"),
        CvdFault::BadNumber(byte) => bad_design_file(alloc, name, byte, b"BadNumber"),
        CvdFault::BadShape(byte) => bad_design_file(alloc, name, byte, b"BadShape"),
        CvdFault::Truncated(byte) => bad_design_file(alloc, name, byte, b"Truncated"),
        CvdFault::Trailing(byte) => bad_design_file(alloc, name, byte, b"Trailing"),
        CvdFault::Invalid(fault) => flow_ending(alloc, name, &fault),
        CvdFault::NoMemory | CvdFault::Limit(_) => Ending::NoMemory,
    }
}

/// How a `sim` ends for a design that breaks a flow condition.
fn flow_ending(alloc: Global, name: &str, fault: &FlowFault) -> Ending
    ensures { IsRefusal (λ answer. IsSomeAnd (flow_flaw fault.now) (λ flaw. answer ≡ design_refusal name.now flaw)) result }
{
    match fault {
        FlowFault::TwoDrivers { .. } => bad_design_file(alloc, name, 0, b"TwoDrivers"),
        FlowFault::MixedDriver { .. } => bad_design_file(alloc, name, 0, b"MixedDriver"),
        FlowFault::NotPrivate { .. } => bad_design_file(alloc, name, 0, b"NotPrivate"),
        FlowFault::Latch { .. } => bad_design_file(alloc, name, 0, b"Latch"),
        FlowFault::ReadBeforeWrite { .. } => bad_design_file(alloc, name, 0, b"ReadBeforeWrite"),
        FlowFault::CombLoop { .. } => bad_design_file(alloc, name, 0, b"CombLoop"),
        FlowFault::NoMemory => Ending::NoMemory,
    }
}
