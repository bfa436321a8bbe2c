ghost use Rattle.std.specs.Prelude.{◌≡◌, ℕ, ◌<◌, [], All, IfOk, if◌then◌else◌, length, map, slice_index_or};
ghost use Rattle.circuit_run.specs.Kinds.{settles};
ghost use Rattle.design_meaning.specs.Valid.{IsValidDesign};
ghost use Rattle.flow_order.specs.Masks.{HasPlaces, mask_of};
ghost use Rattle.flow_order.specs.Orders.{AreReadsOf};
ghost use Rattle.flow_uses.specs.Uses.{AreUsesOf, no_uses};

use crate::mask::{WordMask, masks_of};
use cov_types::{NoMemory, ProcessKind, Rows};
use design_tree::Design;
use flow_uses::Uses;
use std::alloc::Global;
use std::marker::Model;

/// An order of the assignments and combinational processes of a design, and what each of them reads.
#[derive(Drop)]
pub struct Order {
    processes: Rows<u32>,
    pub(crate) reads: Vec<Rows<WordMask>>,
}

impl Model for Order {
    ghost use Rattle.flow_order.specs.Orders.{OrderOf};

    ghost Value = { OrderOf };

    ghost view = { λ order. record { processes = order.processes; reads = order.reads.items } };
}

/// What a process of this kind is kept to read: nothing where it doesn't settle.
fn kept_reads(alloc: Global, kind: ProcessKind, uses: &Uses) -> Result<Rows<WordMask>, NoMemory>
    requires { All HasPlaces uses.now.reads }
    ensures { IfOk result (λ masks. masks ≡ (if settles kind then map mask_of uses.now.reads else [])) }
{
    match kind {
        ProcessKind::Assign => masks_of(alloc, uses.reads.as_slice()),
        ProcessKind::Comb => masks_of(alloc, uses.reads.as_slice()),
        _ => Ok(Rows::new(alloc)),
    }
}

impl Order {
    /// These processes in this order, with what each process of the design reads.
    pub fn new(
        alloc: Global,
        design: &Design,
        uses: &[Uses],
        processes: Rows<u32>,
    ) -> Result<Order, NoMemory>
        requires valid { IsValidDesign design.now }
        requires many { length uses.now ≡ length design.now.processes }
        requires uses { (p : ℕ) → p < length design.now.processes → AreUsesOf design.now p (slice_index_or uses.now p no_uses) }
        ensures processes { IfOk result (λ order. order.processes ≡ processes) }
        ensures reads { IfOk result (λ order. AreReadsOf design.now order.reads) }
    {
        let mut reads = Vec::new(alloc);
        let all = design.processes.as_slice();
        for at in 0..all.len() {
            reads.push(kept_reads(alloc, all[at].kind, &uses[at])?)?;
        }
        Ok(Order { processes, reads })
    }

    /// The processes in their order.
    pub fn processes(&self) -> &[u32]
        ensures { result.now ≡ self.now.processes }
    {
        self.processes.as_slice()
    }
}
