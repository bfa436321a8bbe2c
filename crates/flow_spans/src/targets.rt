ghost use Rattle.std.specs.Prelude.{◌≡◌, IfOk};
ghost use Rattle.design_meaning.specs.Spans.{is_in_any};
ghost use Rattle.design_meaning.specs.Targets.{target_reads};
ghost use Rattle.flow_spans.specs.Reads.{AreKnown, Adds};
ghost use Rattle.flow_spans.specs.Aims.{IsTargetIn, IsAimOf};

use crate::clip::span_of;
use crate::reads::{fixed_position, places_of};
use cov_types::{NoMemory, Var};
use design_state::{Position, State};
use design_tree::Target;
use flow_marks::Span;

/// The bits that a target names, and whether it stands at a constant position.
#[derive(Clone, Copy, Debug)]
pub struct Aim {
    pub span: Span,
    pub fixed: bool,
}

/// What a target names. Puts the spans that its positions read behind those that are there.
pub fn target_aim(
    target: &Target,
    vars: &[Var],
    state: &State,
    out: &mut Vec<Span>,
) -> Result<Aim, NoMemory>
    requires known { AreKnown vars.now state.now }
    requires target { IsTargetIn state.now target.now }
    ensures aim { IfOk result (IsAimOf vars.now target.now) }
    ensures reads { IfOk result (λ _. Adds vars.now out.old.items out.new.items (λ b. is_in_any b (target_reads target.now))) }
{
    match target {
        Target::Whole { var } => {
            let span = span_of(vars, *var, Some(Position::At(0)), None);
            return Ok(Aim { span, fixed: true });
        }
        Target::Part { var, width, at } => {
            let at = fixed_position(at, vars, state, out)?;
            let places = places_of(at, *width);
            let span = span_of(vars, *var, Some(Position::At(0)), places);
            let fixed = at.is_some();
            return Ok(Aim { span, fixed });
        }
        Target::Word { var, at } => {
            let word = fixed_position(at, vars, state, out)?;
            let span = span_of(vars, *var, word, None);
            let fixed = word.is_some();
            return Ok(Aim { span, fixed });
        }
        Target::WordPart {
            var,
            word,
            width,
            at,
        } => {
            let word = fixed_position(word, vars, state, out)?;
            let at = fixed_position(at, vars, state, out)?;
            let places = places_of(at, *width);
            let span = span_of(vars, *var, word, places);
            let fixed = word.is_some() && at.is_some();
            return Ok(Aim { span, fixed });
        }
    }
}
