ghost use Rattle.std.specs.Prelude.{◌≡◌, ◌∷◌, [], All, IfOk};
ghost use Rattle.circuit_run.specs.Kinds.{settles};
ghost use Rattle.circuit_run.specs.Runs.{IsStart};
ghost use Rattle.cycle_start.specs.Cleared.{AreCleared};
ghost use Rattle.design_meaning.specs.Circuit.{circuit_of};
ghost use Rattle.design_meaning.specs.States.{IsStateOf};
ghost use Rattle.design_meaning.specs.Valid.{IsValidDesign};
ghost use Rattle.design_meaning.specs.ValidVariables.{IsVariable};
ghost use Rattle.flow_spans.specs.Reads.{IsSpanOf};

use bit_values::Bits;
use cov_types::{NoMemory, ProcessKind};
use design_state::{Position, State, Update};
use design_tree::Design;
use flow_uses::{Span, all_uses};
use std::alloc::Global;

/// Whether a process of this kind is an assignment or combinational.
fn does_settle(kind: ProcessKind) -> bool
    ensures { result ≡ settles kind }
{
    matches!(kind, ProcessKind::Assign | ProcessKind::Comb)
}

/// Sets the bits of a span to 0.
fn clear_span(design: &Design, span: Span, state: &mut State)
    requires variables { All IsVariable design.now.vars }
    requires span { IsSpanOf design.now.vars span }
    requires of_design { IsStateOf design.now state.old }
    ensures { AreCleared design.now (span ∷ []) state.old state.new }
{
    if span.place >= span.place_end {
        return;
    }
    let zero = Bits::new(span.place_end - span.place, 0);
    for word in span.word..span.word_end {
        state.write_part(&Update {
            var: span.var,
            word: Position::At(u128::from(word)),
            low: Position::At(u128::from(span.place)),
            value: zero,
        });
    }
}

/// Sets the bits of several spans to 0.
fn clear_spans(design: &Design, spans: &[Span], state: &mut State)
    requires variables { All IsVariable design.now.vars }
    requires spans { All (IsSpanOf design.now.vars) spans.now }
    requires of_design { IsStateOf design.now state.old }
    ensures { AreCleared design.now spans.now state.old state.new }
{
    for span in spans {
        clear_span(design, *span, state);
    }
}

/// What the initial processes run from: the start values, but 0 on each bit that an assignment or a combinational process drives.
pub fn start_state(alloc: Global, design: &Design) -> Result<State, NoMemory>
    requires valid { IsValidDesign design.now }
    ensures { IfOk result (λ s. IsStart (circuit_of design.now) s) }
{
    let mut state = State::new(alloc, design)?;
    let uses = all_uses(alloc, design)?;
    for (at, process) in design.processes.as_slice().iter().enumerate() {
        if does_settle(process.kind) {
            clear_spans(design, uses[at].sets.as_slice(), &mut state);
            clear_spans(design, uses[at].defers.as_slice(), &mut state);
        }
    }
    Ok(state)
}
