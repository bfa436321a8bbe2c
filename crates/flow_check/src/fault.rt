ghost use Rattle.std.specs.Prelude.{◌≡◌};
ghost use Rattle.flow_check.specs.declared.fault.FlowFault.TheVariants as flow_fault;
ghost use Rattle.flow_check.specs.Faults.{of_rule};

use cov_types::{NoMemory, Rows};
use flow_rules::RuleFault;
use thiserror::Error;

/// Why a design doesn't flow: the first condition that fails, in this order, with the least process and then the least
/// variable for which it fails. Processes and variables go by their numbers in the design.
#[derive(Debug, Drop, Error)]
pub enum FlowFault {
    /// The process and one with a lesser number drive a bit of the variable.
    #[error("TwoDrivers")]
    TwoDrivers { process: u32, var: u32 },
    /// A combinational process has a nonblocking assignment to the variable, or a clocked one assigns it both ways.
    #[error("MixedDriver")]
    MixedDriver { process: u32, var: u32 },
    /// A clocked process has a blocking assignment to a variable that another process sees, or that is an output.
    #[error("NotPrivate")]
    NotPrivate { process: u32, var: u32 },
    /// An assignment or a combinational process leaves a bit of the variable unwritten on some path.
    #[error("Latch")]
    Latch { process: u32, var: u32 },
    /// A combinational process reads a bit of the variable before it writes it.
    #[error("ReadBeforeWrite")]
    ReadBeforeWrite { process: u32, var: u32 },
    /// Each of the processes drives a bit that the next one reads, and the last one that the first reads. The first is the
    /// least process that lies on such a circle.
    #[error("CombLoop")]
    CombLoop { cycle: Rows<u32> },
    #[error("NoMemory")]
    NoMemory,
}

impl From<NoMemory> for FlowFault {
    ghost use Rattle.flow_check.specs.declared.fault.FlowFault.TheVariants.{NoMemory as no_memory};

    ghost from_gives = { λ _ fault. fault ≡ no_memory };

    fn from(_fault: NoMemory) -> FlowFault {
        FlowFault::NoMemory
    }
}

/// The fault of one of the first five conditions.
pub(crate) fn rule_fault(rule: RuleFault) -> FlowFault
    ensures { result ≡ of_rule rule }
{
    match rule {
        RuleFault::TwoDrivers { process, var } => FlowFault::TwoDrivers { process, var },
        RuleFault::MixedDriver { process, var } => FlowFault::MixedDriver { process, var },
        RuleFault::NotPrivate { process, var } => FlowFault::NotPrivate { process, var },
        RuleFault::Latch { process, var } => FlowFault::Latch { process, var },
        RuleFault::ReadBeforeWrite { process, var } => FlowFault::ReadBeforeWrite { process, var },
    }
}
