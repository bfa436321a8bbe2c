ghost use Rattle.std.specs.Prelude.{ℕ, List, IfErr, IfOk};
ghost use Rattle.circuit_run.specs.States.{State};
ghost use Rattle.design_meaning.specs.FlowFaults.{Flows};
ghost use Rattle.design_meaning.specs.Orders.{IsOrder};
ghost use Rattle.design_meaning.specs.SettledLaws.{HasOneSettled, IsRow};
ghost use Rattle.design_meaning.specs.States.{IsStateOf};
ghost use Rattle.design_meaning.specs.Valid.{IsValidDesign};
ghost use Rattle.flow_order.specs.Orders.{AreReadsOf};
ghost use Rattle.flow_check.specs.Faults.{IsFlowFault};

use crate::fault::{FlowFault, rule_fault};
use design_laws::settles_once;
use design_tree::Design;
use flow_edges::{Sorted, order_of};
use flow_order::Order;
use flow_rules::broken_rule;
use flow_uses::all_uses;
use std::alloc::Global;

/// An order of the assignments and combinational processes of a design that flows, with what each of them reads; else the
/// first fault of its flow. Of a design that flows, registers and inputs always have exactly one settled state.
pub fn check(alloc: Global, design: &Design) -> Result<Order, FlowFault>
    requires valid { IsValidDesign design.now }
    ensures flows { IfOk result (λ order. Flows design.now × IsOrder design.now order.processes) }
    ensures reads { IfOk result (λ order. AreReadsOf design.now order.reads) }
    ensures settles { IfOk result (λ order. (r : State) (row : List ℕ) → IsStateOf design.now r → IsRow design.now row → HasOneSettled design.now r row) }
    ensures fault { IfErr result (IsFlowFault design.now) }
{
    let uses = all_uses(alloc, design)?;
    if let Some(rule) = broken_rule(alloc, design, uses.as_slice())? {
        return Err(rule_fault(rule));
    }
    match order_of(alloc, design, uses.as_slice())? {
        Sorted::Circle(cycle) => Err(FlowFault::CombLoop { cycle }),
        Sorted::Order(processes) => {
            let order = Order::new(alloc, design, uses.as_slice(), processes)?;
            settles_once();
            Ok(order)
        }
    }
}
