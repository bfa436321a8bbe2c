//! Whole design files, read and checked.

ghost use Rattle.std.specs.Prelude.{IfErr, IfOk};
ghost use Rattle.cvd_text.specs.Spelling.{Cvd};
ghost use Rattle.design_meaning.specs.FlowFaults.{Flows};
ghost use Rattle.design_tree.specs.declared.design.Design.{Design};
ghost use Rattle.flow_check.specs.Faults.{IsFlowFault};
ghost use Rattle.design_meaning.specs.Orders.{IsOrder};
ghost use Rattle.design_meaning.specs.Valid.{IsValid};
ghost use Rattle.flow_order.specs.Orders.{AreReadsOf};
ghost use Rattle.cvd_file.specs.Faults.{BreaksFlow, IsDecodeFault};

use crate::fault::CvdFault;
use crate::reading::read_design;
use design_tree::Instrumented;
use flow_check::{FlowFault, Order, check};
use std::alloc::Global;

/// The design of a text, with an order of its assignments and combinational processes; else the first fault of the text.
/// It is never `Limit`.
pub fn decode(alloc: Global, bytes: &[u8]) -> Result<(Instrumented, Order), CvdFault>
    ensures design { IfOk result (λ p. Cvd p.0 bytes.now) }
    ensures flows { IfOk result (λ p. Flows p.0.design × IsOrder p.0.design p.1.processes) }
    ensures reads { IfOk result (λ p. AreReadsOf p.0.design p.1.reads) }
    ensures fault { IfErr result (IsDecodeFault bytes.now) }
{
    let design = read_design(alloc, bytes)?;
    let order = order_of(alloc, &design)?;
    Ok((design, order))
}

/// An order of a valid design that flows.
fn order_of(alloc: Global, design: &Instrumented) -> Result<Order, CvdFault>
    requires { IsValid design.now }
    ensures flows { IfOk result (λ order. Flows design.now.design × IsOrder design.now.design order.processes) }
    ensures reads { IfOk result (λ order. AreReadsOf design.now.design order.reads) }
    ensures fault { IfErr result (BreaksFlow design.now.design) }
{
    match check(alloc, &design.design) {
        Ok(order) => Ok(order),
        Err(fault) => Err(invalid(fault)),
    }
}

/// The fault of a design that breaks a flow condition.
fn invalid(fault: FlowFault) -> CvdFault
    ensures { (d : Design) → IsFlowFault d fault → BreaksFlow d result }
{
    match fault {
        FlowFault::NoMemory => CvdFault::NoMemory,
        other => CvdFault::Invalid(other),
    }
}
