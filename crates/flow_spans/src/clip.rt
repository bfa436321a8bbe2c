ghost use Rattle.std.specs.Prelude.{◌≡◌, ℕ, ◌+◌, ◌<◌, ◌≤◌, length, All, IsSome};
ghost use Rattle.circuit_run.specs.States.{Bit, IsBitOf};
ghost use Rattle.design_meaning.specs.ValidVariables.{IsVariable};
ghost use Rattle.design_meaning.specs.Spans as meaning;
ghost use Rattle.flow_marks.specs.Slots.{is_in};
ghost use Rattle.flow_spans.specs.Reads.{IsSpanOf};
ghost use Rattle.flow_spans.specs.Clips.{ArePlaces, places_asked, span_asked};

use cov_types::Var;
use design_state::Position;
use flow_marks::Span;

/// So many places of a word, from a position on.
#[derive(Clone, Copy, Debug)]
pub struct Places {
    pub at: Position,
    pub width: u8,
}

/// A range of places, its end left out.
#[derive(Clone, Copy, Debug)]
pub(crate) struct Range {
    pub(crate) from: u8,
    pub(crate) to: u8,
}

/// Those of so many places from a position on that are below the width.
fn clipped(width: u8, places: Places) -> Range
    ensures { ArePlaces width (places_asked (Some places)) result }
{
    let wide = u32::from(places.width);
    match places.at {
        Position::At(at) => {
            if at >= u128::from(width) {
                return Range { from: 0, to: 0 };
            }
            let from = at as u8;
            let end = u32::from(from) + wide;
            let to = end.min(u32::from(width)) as u8;
            return Range { from, to };
        }
        Position::Before(before) => {
            if before >= u128::from(places.width) {
                return Range { from: 0, to: 0 };
            }
            let end = places.width - 1 - before as u8;
            let to = end.min(width);
            return Range { from: 0, to };
        }
    }
}

/// The places asked for that are below the width: all, where none are asked for.
pub(crate) fn places_in(width: u8, asked: Option<Places>) -> Range
    ensures { ArePlaces width (places_asked asked) result }
{
    match asked {
        None => return Range { from: 0, to: width },
        Some(places) => return clipped(width, places),
    }
}

/// A span without bits.
fn nowhere(var: u32) -> Span
    ensures { result ≡ record { var = var; word = 0; word_end = 1; place = 0; place_end = 0 } }
{
    Span {
        var,
        word: 0,
        word_end: 1,
        place: 0,
        place_end: 0,
    }
}

/// The bits of a variable at a word, or at all words, and at the places asked for.
pub(crate) fn span_of(vars: &[Var], var: u32, word: Option<Position>, asked: Option<Places>) -> Span
    requires variables { All IsVariable vars.now }
    requires var { var < length vars.now }
    ensures span { IsSpanOf vars.now result }
    ensures var { result.var ≡ var }
    ensures single { IsSome word → result.word_end ≡ result.word + 1 }
    ensures bits { (b : Bit) → IsBitOf vars.now b → is_in result b ≡ meaning.is_in b (span_asked var word asked) }
{
    let words = vars[var as usize].words;
    let places = places_in(vars[var as usize].width, asked);
    let at = match word {
        None => {
            return Span {
                var,
                word: 0,
                word_end: words,
                place: places.from,
                place_end: places.to,
            };
        }
        Some(Position::Before(_)) => return nowhere(var),
        Some(Position::At(at)) => at,
    };
    if at >= u128::from(words) {
        return nowhere(var);
    }
    let word = at as u32;
    Span {
        var,
        word,
        word_end: word + 1,
        place: places.from,
        place_end: places.to,
    }
}
