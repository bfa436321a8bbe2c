ghost use Rattle.std.specs.Prelude.{◌≡◌, ◌-◌, ◌≤◌, ◌^◌, All, IfOk, map};
ghost use Rattle.flow_order.specs.Masks.{HasPlaces, mask_of};

use cov_types::{NoMemory, Rows};
use flow_uses::Span;
use std::alloc::Global;

/// Bits of one variable: those at some places of some words.
#[derive(Clone, Copy, Debug, PartialEq, Eq)]
pub struct WordMask {
    pub var: u32,
    /// The first word.
    pub word: u32,
    /// The word past the last.
    pub word_end: u32,
    /// A one at each of the places.
    pub mask: u128,
}

/// The number with ones at so many of the lowest places.
fn ones(count: u8) -> u128
    requires { count ≤ 128 }
    ensures { result ≡ 2 ^ count - 1 }
{
    if count == 0 {
        return 0;
    }
    u128::MAX >> (128 - count)
}

/// The words and places of a span.
fn span_mask(span: Span) -> WordMask
    requires { HasPlaces span }
    ensures { result ≡ mask_of span }
{
    WordMask {
        var: span.var,
        word: span.word,
        word_end: span.word_end,
        mask: ones(span.place_end) - ones(span.place),
    }
}

/// The words and places of several spans.
pub(crate) fn masks_of(alloc: Global, spans: &[Span]) -> Result<Rows<WordMask>, NoMemory>
    requires { All HasPlaces spans.now }
    ensures { IfOk result (λ masks. masks ≡ map mask_of spans.now) }
{
    let mut masks = Vec::new(alloc);
    for span in spans {
        masks.push(span_mask(*span))?;
    }
    Ok(Rows::from_vec(masks))
}
