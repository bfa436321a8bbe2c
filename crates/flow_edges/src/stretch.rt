ghost use Rattle.std.specs.Prelude.{◌≡◌, ◌≤◌};
ghost use Rattle.flow_marks.specs.Slots.{IsSpan};
ghost use Rattle.flow_edges.specs.Stretches.{bits_of, columns_of, AreNumbered};

use flow_marks::{Slot, Span};

/// Numbers from one up to another, which is not among them.
#[derive(Clone, Copy)]
pub(crate) struct Stretch {
    pub(crate) from: usize,
    pub(crate) to: usize,
}

/// The numbers of the bits that a span has in its first word.
pub(crate) fn bits_of(slots: &[Slot], span: Span) -> Stretch
    requires slots { AreNumbered slots.now }
    requires span { IsSpan slots.now span }
    ensures { result ≡ bits_of slots.now span }
{
    let slot = slots[span.var as usize];
    let word = slot.bit + span.word as usize * slot.width as usize;
    Stretch {
        from: word + span.place as usize,
        to: word + span.place_end as usize,
    }
}

/// The numbers of the columns of a span.
pub(crate) fn columns_of(slots: &[Slot], span: Span) -> Stretch
    requires slots { AreNumbered slots.now }
    requires span { IsSpan slots.now span }
    ensures { result ≡ columns_of slots.now span }
{
    let slot = slots[span.var as usize];
    Stretch {
        from: slot.column + span.place as usize,
        to: slot.column + span.place_end as usize,
    }
}
