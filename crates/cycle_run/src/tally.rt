ghost use Rattle.std.specs.Prelude.{◌≡◌, ℕ, ◌+◌, ◌<◌, ◌++◌, false, length};
ghost use Rattle.circuit_run.specs.Kinds.{is_comb};
ghost use Rattle.circuit_run.specs.States.{State, held};
ghost use Rattle.cycle_settle.specs.Settling.{AreRaised};
ghost use Rattle.design_meaning.specs.Counters.{HasCounted, toggled};
ghost use Rattle.design_meaning.specs.States.{IsStateOf};
ghost use Rattle.design_meaning.specs.Valid.{IsValid};
ghost use Rattle.flat_design.specs.Effects.{room_of_all};
ghost use Rattle.place_marks.specs.Marked.{is_marked};
ghost use Rattle.cycle_parts.specs.Toggles.{AreFirsts};
ghost use Rattle.cycle_phases.specs.Others.{AreOthers};
ghost use Rattle.cycle_run.specs.Ends.{settled_before};
ghost use Rattle.cycle_run.specs.Tally.{AreFew, CanRaise, comb_raised};

use cov_types::ProcessKind;
use cycle_parts::{Raised, raise, raise_toggled};
use flat_design::{Design, Instrumented, State};
use place_marks::PlaceMarks;

/// Whether a process of this kind is combinational.
fn is_combinational(kind: ProcessKind) -> bool
    ensures { result ≡ is_comb kind }
{
    matches!(kind, ProcessKind::Comb)
}

/// Raises the counters that the last run of each combinational process raised.
fn count_kept(design: &Design, others: &PlaceMarks, kept: &[Raised], counts: &mut [u64])
    requires others { AreOthers design.now others.now }
    requires few { AreFew design.now kept.now }
    requires fit { CanRaise counts.old (room_of_all design.now).counters }
    ensures { (s : State) → AreRaised design.now s kept.now → HasCounted counts.old (comb_raised design.now s) counts.new }
{
    let processes = design.processes.as_slice();
    let mut at = others.next_before(0, processes.len());
    'process: while at < processes.len() {
        if is_combinational(processes[at].kind) {
            raise(counts, kept[at].counters());
        }
        at = others.next_before(at + 1, processes.len());
    }
}

/// Raises what a settled state raises: each combinational process occurs once, and each bit that differs from the settled
/// state before is a toggle.
pub fn count_settled(
    x: &Instrumented,
    others: &PlaceMarks,
    first: bool,
    firsts: &[usize],
    changed: &PlaceMarks,
    before: &State,
    now: &State,
    kept: &[Raised],
    counts: &mut [u64],
)
    requires valid { IsValid x.now }
    requires others { AreOthers x.now.design others.now }
    requires firsts { AreFirsts (length x.now.design.vars) x.now.toggles firsts.now }
    requires changed { first ≡ false → (v : ℕ) → v < length x.now.design.vars → is_marked changed.now v ≡ false → held now.now v ≡ held before.now v }
    requires before { IsStateOf x.now.design before.now }
    requires now { IsStateOf x.now.design now.now }
    requires raised { AreRaised x.now.design now.now kept.now }
    requires many { length kept.now ≡ length x.now.design.processes }
    requires fit { CanRaise counts.old ((room_of_all x.now.design).counters + length x.now.toggles) }
    ensures { HasCounted counts.old (comb_raised x.now.design now.now ++ toggled (settled_before first before.now) now.now x.now.toggles) counts.new }
{
    count_kept(&x.design, others, kept, counts);
    if first {
        return;
    }
    raise_toggled(x, firsts, changed, before, now, counts);
}
