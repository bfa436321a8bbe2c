ghost use Rattle.std.specs.Prelude.{◌≡◌, ◌<◌, length, All, IfOk};
ghost use Rattle.design_state.specs.InDesign.{IsTypedIn, IsIndexIn};
ghost use Rattle.design_meaning.specs.ValidVariables.{IsVariable};
ghost use Rattle.design_meaning.specs.Spans.{is_in_any, is_constant, constant_position, places_from, reads_of_index, reads_of};
ghost use Rattle.design_meaning.specs.Spans as meaning;
ghost use Rattle.flow_spans.specs.Reads.{AreKnown, Adds};
ghost use Rattle.flow_spans.specs.Clips.{word_asked, places_asked, span_asked};
ghost use Rattle.flow_spans.specs.Asked.{reads_asked, constant};

use crate::clip::{Places, span_of};
use cov_types::{NoMemory, Var};
use design_state::{Position, State, position_at};
use design_tree::{Index, Typed};
use flow_marks::Span;

/// Puts the span of a variable behind those that are there.
fn add(
    vars: &[Var],
    var: u32,
    word: Option<Position>,
    asked: Option<Places>,
    out: &mut Vec<Span>,
) -> Result<(), NoMemory>
    requires variables { All IsVariable vars.now }
    requires var { var < length vars.now }
    ensures { IfOk result (λ _. Adds vars.now out.old.items out.new.items (λ b. meaning.is_in b (span_asked var word asked))) }
{
    out.push(span_of(vars, var, word, asked))?;
    Ok(())
}

/// The places from a position on, if it is constant.
pub(crate) fn places_of(at: Option<Position>, width: u8) -> Option<Places>
    ensures { places_asked result ≡ places_from (word_asked at) width }
{
    match at {
        None => None,
        Some(at) => Some(Places { at, width }),
    }
}

/// Puts the spans that an index reads behind those that are there. Its position, if it is constant.
#[cycle(reads)]
pub fn fixed_position(
    at: &Index,
    vars: &[Var],
    state: &State,
    out: &mut Vec<Span>,
) -> Result<Option<Position>, NoMemory>
    requires known { AreKnown vars.now state.now }
    requires index { IsIndexIn state.now at.now }
    ensures constant { IfOk result (λ p. word_asked p ≡ constant_position at.now) }
    ensures reads { IfOk result (λ _. Adds vars.now out.old.items out.new.items (λ b. is_in_any b (reads_of_index at.now))) }
{
    if reads_at(at.value.get(), None, vars, state, out)? {
        return Ok(Some(position_at(at, state)));
    }
    Ok(None)
}

/// Puts the spans that an expression reads, of whose value some places are asked for, behind those that are there.
/// Whether it is constant.
#[cycle(reads)]
fn reads_at(
    e: &Typed,
    asked: Option<Places>,
    vars: &[Var],
    state: &State,
    out: &mut Vec<Span>,
) -> Result<bool, NoMemory>
    requires known { AreKnown vars.now state.now }
    requires typed { IsTypedIn state.now e.now }
    ensures constant { IfOk result (λ k. k ≡ constant e.now) }
    ensures reads { IfOk result (λ _. Adds vars.now out.old.items out.new.items (λ b. is_in_any b (reads_asked e.now (places_asked asked)))) }
{
    match e {
        Typed::Number { width: _, value: _ } => return Ok(true),
        Typed::Var { var } => {
            add(vars, *var, Some(Position::At(0)), asked, out)?;
            return Ok(false);
        }
        Typed::Word { var, at } => {
            let word = fixed_position(at, vars, state, out)?;
            add(vars, *var, word, asked, out)?;
            return Ok(false);
        }
        Typed::Part { width, of, at } => {
            let at = fixed_position(at, vars, state, out)?;
            let constant = reads_at(of.get(), places_of(at, *width), vars, state, out)?;
            return Ok(constant && at.is_some());
        }
        Typed::ZeroExtend { width: _, of } => {
            let constant = reads_at(of.get(), None, vars, state, out)?;
            return Ok(constant);
        }
        Typed::SignExtend { width: _, of } => {
            let constant = reads_at(of.get(), None, vars, state, out)?;
            return Ok(constant);
        }
        Typed::Truncate { width: _, of } => {
            let constant = reads_at(of.get(), None, vars, state, out)?;
            return Ok(constant);
        }
        Typed::Unary { op: _, of } => {
            let constant = reads_at(of.get(), None, vars, state, out)?;
            return Ok(constant);
        }
        Typed::Repeat { count: _, of } => {
            let constant = reads_at(of.get(), None, vars, state, out)?;
            return Ok(constant);
        }
        Typed::Binary { op: _, left, right } => {
            let first = reads_at(left.get(), None, vars, state, out)?;
            let second = reads_at(right.get(), None, vars, state, out)?;
            return Ok(first && second);
        }
        Typed::Join { high, low } => {
            let first = reads_at(high.get(), None, vars, state, out)?;
            let second = reads_at(low.get(), None, vars, state, out)?;
            return Ok(first && second);
        }
        Typed::Choose { test, yes, no } => {
            let first = reads_at(test.get(), None, vars, state, out)?;
            let second = reads_at(yes.get(), None, vars, state, out)?;
            let third = reads_at(no.get(), None, vars, state, out)?;
            return Ok(first && second && third);
        }
    }
}

/// Puts the spans that an expression reads behind those that are there.
pub fn expression_reads(
    e: &Typed,
    vars: &[Var],
    state: &State,
    out: &mut Vec<Span>,
) -> Result<(), NoMemory>
    requires known { AreKnown vars.now state.now }
    requires typed { IsTypedIn state.now e.now }
    ensures { IfOk result (λ _. Adds vars.now out.old.items out.new.items (λ b. is_in_any b (reads_of e.now))) }
{
    reads_at(e, None, vars, state, out)?;
    Ok(())
}
