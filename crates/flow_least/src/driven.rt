ghost use Rattle.std.specs.Prelude.{◌≡◌, ◌||◌, ◌&&◌, ◌++◌, All};
ghost use Rattle.circuit_run.specs.Kinds as kinds;
ghost use Rattle.circuit_run.specs.States.{Bit};
ghost use Rattle.flow_marks.specs.Slots.{IsIn};
ghost use Rattle.flow_marks.specs.Sets.{has};
ghost use Rattle.flow_spans.specs.Reads.{has_bit};
ghost use Rattle.flow_least.specs.Least.{IsLeastOf};
ghost use Rattle.flow_least.specs.Met.{HasMetEither, IsMarked, AreMarked, is_driven};

use crate::least::{least_met, lesser};
use cov_types::ProcessKind;
use flow_marks::{Marks, Span};
use flow_uses::Uses;

/// Whether a process holds all the time: an assignment or a combinational one.
pub fn settles(kind: ProcessKind) -> bool
    ensures { result ≡ kinds.settles kind }
{
    match kind {
        ProcessKind::Assign => true,
        ProcessKind::Comb => true,
        _ => false,
    }
}

/// Puts the bits of spans into a set.
fn insert_all(marks: &mut Marks, spans: &[Span])
    requires { All (IsMarked marks.old.slots) spans.now }
    ensures slots { marks.new.slots ≡ marks.old.slots }
    ensures bits { (b : Bit) → IsIn marks.old.slots b → has marks.new b ≡ (has_bit spans.now b || has marks.old b) }
{
    for span in spans {
        marks.insert(*span);
    }
}

/// Puts the bits that a process drives into a set, where they are wanted.
pub fn insert_driven(marks: &mut Marks, uses: &Uses, wanted: bool)
    requires { AreMarked marks.old.slots uses.now }
    ensures slots { marks.new.slots ≡ marks.old.slots }
    ensures bits { (b : Bit) → IsIn marks.old.slots b → has marks.new b ≡ ((wanted && is_driven uses.now b) || has marks.old b) }
{
    if wanted {
        insert_all(marks, uses.sets.as_slice());
        insert_all(marks, uses.defers.as_slice());
    }
}

/// The least variable of a bit that a process drives and that is in the set.
pub fn least_driven(marks: &Marks, uses: &Uses) -> Option<u32>
    requires { AreMarked marks.now.slots uses.now }
    ensures { IsLeastOf (HasMetEither marks.now uses.now) result }
{
    lesser(
        least_met(marks, uses.sets.as_slice()),
        least_met(marks, uses.defers.as_slice()),
    )
}
