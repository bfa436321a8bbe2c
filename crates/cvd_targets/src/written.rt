//! The four kinds of target, put together and tested.

ghost use Rattle.std.specs.Prelude.{◌≡◌, ◌≤◌, ◌^◌, ℕ};
ghost use Rattle.cov_types.specs.declared.kind.ProcessKind.{ProcessKind as AnyKind};
ghost use Rattle.cvd_cursor.specs.Numerals.{below};
ghost use Rattle.cvd_targets.specs.Positions.{At, NamedIn, PositionIn};
ghost use Rattle.cvd_targets.specs.TargetParts.{TargetIn, part_target, word_target, word_part_target};
ghost use Rattle.design_meaning.specs.WellTyped as typed;
ghost use Rattle.design_tree.specs.declared.design.Design.{Design};
ghost use Rattle.design_tree.specs.declared.step.Target.TheVariants as targets;

use crate::destination::Named;
use crate::position::Position;
use crate::target::Written;
use design_tree::Target;

/// The greatest number of nodes of the expressions of a design.
const MOST: usize = 4_194_304;

fn is_width(width: u8) -> bool
    ensures { result ≡ typed.is_width width }
{
    1 <= width && width <= 128
}

pub(crate) fn whole_of(named: Option<Named>) -> Option<Written>
    ensures { (d : Design) (k : AnyKind) (v : ℕ) → NamedIn d k v named → TargetIn d k (targets.Whole v) result }
{
    let Some(named) = named else {
        return None;
    };
    if named.found.words != 1 {
        return None;
    }
    let target = Target::Whole { var: named.var };
    Some(Written {
        target,
        width: named.found.width,
        nodes: 0,
    })
}

pub(crate) fn part_of(
    named: Option<Named>,
    width: Option<u8>,
    at: Option<Position>,
) -> Option<Written>
    ensures { (d : Design) (k : AnyKind) (v w : ℕ) (a : At) → NamedIn d k v named → width ≡ below 256 w → PositionIn d a at
        → TargetIn d k (part_target (v, (w, a))) result }
{
    let Some(named) = named else {
        return None;
    };
    if named.found.words != 1 {
        return None;
    }
    let Some(width) = width else {
        return None;
    };
    if !is_width(width) {
        return None;
    }
    let Some(at) = at else {
        return None;
    };
    let Position { at, nodes } = at;
    let target = Target::Part {
        var: named.var,
        width,
        at,
    };
    Some(Written {
        target,
        width,
        nodes,
    })
}

pub(crate) fn word_of(named: Option<Named>, at: Option<Position>) -> Option<Written>
    ensures { (d : Design) (k : AnyKind) (v : ℕ) (a : At) → NamedIn d k v named → PositionIn d a at → TargetIn d k (word_target (v, a)) result }
{
    let Some(named) = named else {
        return None;
    };
    let Some(at) = at else {
        return None;
    };
    let Position { at, nodes } = at;
    let target = Target::Word { var: named.var, at };
    Some(Written {
        target,
        width: named.found.width,
        nodes,
    })
}

pub(crate) fn word_part_of(
    named: Option<Named>,
    word: Option<Position>,
    width: Option<u8>,
    at: Option<Position>,
) -> Option<Written>
    ensures { (d : Design) (k : AnyKind) (v w : ℕ) (i a : At) → NamedIn d k v named → PositionIn d i word
        → width ≡ below 256 w → PositionIn d a at → TargetIn d k (word_part_target (v, (i, (w, a)))) result }
{
    let Some(named) = named else {
        return None;
    };
    let Some(word) = word else {
        return None;
    };
    let Some(width) = width else {
        return None;
    };
    if !is_width(width) {
        return None;
    }
    let Some(at) = at else {
        return None;
    };
    let nodes = word.nodes.saturating_add(at.nodes);
    if nodes > MOST {
        return None;
    }
    let Position { at: word, nodes: _ } = word;
    let Position { at, nodes: _ } = at;
    let target = Target::WordPart {
        var: named.var,
        word,
        width,
        at,
    };
    Some(Written {
        target,
        width,
        nodes,
    })
}
