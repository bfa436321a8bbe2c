ghost use Rattle.std.specs.Prelude.{◌≡◌, ◌+◌, ◌≤◌, ◌<◌, ◌||◌, ◌&&◌, false, IfOk, length, take as first, drop, [], ◌∷◌};
ghost use Rattle.circuit_run.specs.States.{Bit};
ghost use Rattle.flow_marks.specs.Slots.{IsIn, IsSpan, is_in};
ghost use Rattle.flow_marks.specs.Sets.{has};
ghost use Rattle.flow_marks.specs.Takes.{AreIn, Takes, is_listed, spot_bit};

use crate::marks::Marks;
use crate::span::Span;
use cov_types::NoMemory;

/// A bit that was taken out of a set.
#[derive(Clone, Copy, Debug, PartialEq, Eq)]
pub struct Spot {
    pub var: u32,
    pub word: u32,
    pub place: u8,
}

/// Takes a bit out of a set, and keeps it on the trail where it was in it.
pub fn take(marks: &mut Marks, spot: Spot, trail: &mut Vec<Spot>) -> Result<(), NoMemory>
    requires { IsIn marks.old.slots (spot_bit spot) }
    ensures { IfOk result (λ _. Takes marks.old marks.new trail.old.items trail.new.items (λ b. is_listed (spot ∷ []) b)) }
{
    if marks.has(spot.var, spot.word, spot.place) {
        trail.push(spot)?;
        marks.remove(spot.var, spot.word, spot.place);
    }
    Ok(())
}

/// Takes the bits of a span of one word out of a set, and keeps those that were in it on the trail.
pub fn take_span(marks: &mut Marks, span: Span, trail: &mut Vec<Spot>) -> Result<(), NoMemory>
    requires span { IsSpan marks.old.slots span }
    requires one { span.word_end ≡ span.word + 1 }
    ensures { IfOk result (λ _. Takes marks.old marks.new trail.old.items trail.new.items (is_in span)) }
{
    for place in span.place..span.place_end {
        let spot = Spot {
            var: span.var,
            word: span.word,
            place,
        };
        take(marks, spot, trail)?;
    }
    Ok(())
}

/// Takes the trail back to a length, and puts what was on it into the set again.
pub fn undo(marks: &mut Marks, trail: &mut Vec<Spot>, from: usize)
    requires inside { AreIn marks.old.slots trail.old.items }
    requires length { from ≤ length trail.old.items }
    ensures slots { marks.new.slots ≡ marks.old.slots }
    ensures bits { (b : Bit) → IsIn marks.old.slots b → has marks.new b ≡ (is_listed (drop from trail.old.items) b || has marks.old b) }
    ensures trail { trail.new.items ≡ first from trail.old.items }
{
    'undo: while trail.len() > from {
        let last = trail[trail.len() - 1];
        marks.add(last.var, last.word, last.place);
        trail.pop();
    }
}
