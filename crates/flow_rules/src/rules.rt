ghost use Rattle.std.specs.Prelude.{◌≡◌, ℕ, ◌<◌, length, slice_index_or, IfOk, IfNone, IfSome};
ghost use Rattle.design_meaning.specs.Valid.{IsValidDesign};
ghost use Rattle.design_meaning.specs.FlowFaults.{IsFaultOf};
ghost use Rattle.flow_uses.specs.Uses.{AreUsesOf, no_uses};
ghost use Rattle.flow_rules.specs.Rules.{KeepsRules, seen};

use cov_types::NoMemory;
use design_tree::Design;
use flow_drivers::{mixed_driver, not_private, two_drivers};
use flow_paths::{PathFault, path_fault};
use flow_uses::Uses;
use std::alloc::Global;

/// The condition that fails, with the process and the variable for which it does.
#[derive(Clone, Copy, Debug, PartialEq, Eq)]
pub enum RuleFault {
    /// The process drives a bit that one before it drives.
    TwoDrivers { process: u32, var: u32 },
    /// A combinational process assigns it later, or a clocked one both at once and later.
    MixedDriver { process: u32, var: u32 },
    /// A clocked process assigns it at once, and another process sees it or it is an output.
    NotPrivate { process: u32, var: u32 },
    /// An assignment or combinational process leaves a bit of it unwritten on some path.
    Latch { process: u32, var: u32 },
    /// A combinational process reads a bit of it before it is written.
    ReadBeforeWrite { process: u32, var: u32 },
}

/// The first condition that fails, with its least process and then its least variable, if any fails.
pub fn broken_rule(
    alloc: Global,
    design: &Design,
    uses: &[Uses],
) -> Result<Option<RuleFault>, NoMemory>
    requires valid { IsValidDesign design.now }
    requires many { length uses.now ≡ length design.now.processes }
    requires uses { (p : ℕ) → p < length design.now.processes → AreUsesOf design.now p (slice_index_or uses.now p no_uses) }
    ensures kept { IfOk result (λ f. IfNone f (KeepsRules design.now)) }
    ensures fault { IfOk result (λ f. IfSome f (λ r. IsFaultOf design.now (seen r))) }
{
    match two_drivers(alloc, design, uses)? {
        Some(at) => {
            return Ok(Some(RuleFault::TwoDrivers {
                process: at.process,
                var: at.var,
            }));
        }
        None => {}
    }
    match mixed_driver(alloc, design, uses)? {
        Some(at) => {
            return Ok(Some(RuleFault::MixedDriver {
                process: at.process,
                var: at.var,
            }));
        }
        None => {}
    }
    match not_private(alloc, design, uses)? {
        Some(at) => {
            return Ok(Some(RuleFault::NotPrivate {
                process: at.process,
                var: at.var,
            }));
        }
        None => {}
    }
    match path_fault(alloc, design, uses)? {
        None => Ok(None),
        Some(PathFault::Latch { process, var }) => Ok(Some(RuleFault::Latch { process, var })),
        Some(PathFault::ReadBeforeWrite { process, var }) => {
            Ok(Some(RuleFault::ReadBeforeWrite { process, var }))
        }
    }
}
