//! Faults, as they are printed.

use cov_types::Rows;
use cvd_file::CvdFault;
use flow_check::FlowFault;
use std::alloc::Global;
use std::fmt::Write;

/// The processes of a circle.
fn circle(alloc: Global, cycle: &Rows<u32>) -> anyhow::Result<String> {
    let mut told = String::from_str(alloc, "CombLoop")?;
    for process in cycle.as_slice() {
        write!(told, " {process}")?;
    }
    Ok(told)
}

/// A flow fault with its numbers.
fn of_flow(alloc: Global, fault: FlowFault) -> anyhow::Result<String> {
    let name = format!(in alloc; "{fault}")?;
    match fault {
        FlowFault::CombLoop { cycle } => circle(alloc, &cycle),
        FlowFault::NoMemory => Ok(name),
        FlowFault::TwoDrivers { process, var }
        | FlowFault::MixedDriver { process, var }
        | FlowFault::NotPrivate { process, var }
        | FlowFault::Latch { process, var }
        | FlowFault::ReadBeforeWrite { process, var } => {
            Ok(format!(in alloc; "{name} {process} {var}")?)
        }
    }
}

/// A fault of a design file; of one that breaks a flow condition, which, and where.
pub(crate) fn told(alloc: Global, fault: CvdFault) -> anyhow::Result<String> {
    match fault {
        CvdFault::Invalid(flow) => of_flow(alloc, flow),
        other => Ok(format!(in alloc; "{other}")?),
    }
}
