//! Parts of items: names, values, ranges, the types of parameters, clocks and covers.

ghost use Rattle.vlog_reading.specs.ReadItemParts as spec;
ghost use Rattle.vlog_reading.specs.Reading.{Reads};

use cov_types::ByteText;
use std::alloc::Global;
use vlog_cursor::{Cursor, Rule, Word, optional};
use vlog_expressions::{expression, expression_before, name_token};
use vlog_reading::ReadFault;
use vlog_tokens::TokenKind;
use vlog_tree::{Expr, ItemKind, NamePlace, ParamForm, RangeExpr, Shared};

/// A declared name and where it stands.
#[tactic(auto, unfolding(vlog_reading::specs::ReadItemParts::name_place))]
pub fn name_place(alloc: Global, tokens: &mut Cursor<'_>) -> Result<NamePlace, ReadFault>
    ensures { Reads (spec.name_place tokens.old) result tokens.new }
{
    let place = tokens.place();
    let name = name_token(alloc, tokens)?;
    Ok(NamePlace { place, name })
}

/// A declared name, as an item of a list.
#[derive(Drop)]
pub struct NameRule;

impl Rule for NameRule {
    type Tree = NamePlace;

    ghost reads = { λ _. spec.name_place };

    fn read(&self, alloc: Global, tokens: &mut Cursor<'_>) -> Result<NamePlace, ReadFault> {
        name_place(alloc, tokens)
    }
}

/// `=` and an expression.
#[derive(Drop)]
pub struct ValueRule;

impl Rule for ValueRule {
    type Tree = Expr;

    ghost reads = { λ _. spec.value };

    #[tactic(auto, unfolding(vlog_reading::specs::ReadItemParts::value))]
    fn read(&self, alloc: Global, tokens: &mut Cursor<'_>) -> Result<Expr, ReadFault> {
        tokens.expect(Word::EqualSign)?;
        expression(alloc, tokens)
    }
}

/// The range of a vector or of a memory.
#[derive(Drop)]
pub struct RangeRule;

impl Rule for RangeRule {
    type Tree = RangeExpr;

    ghost reads = { λ _. spec.range };

    #[tactic(auto, unfolding(vlog_reading::specs::ReadItemParts::range))]
    fn read(&self, alloc: Global, tokens: &mut Cursor<'_>) -> Result<RangeExpr, ReadFault> {
        tokens.expect(Word::OpenBracket)?;
        let high = expression_before(alloc, tokens, Word::Colon)?;
        let low = expression_before(alloc, tokens, Word::CloseBracket)?;
        Ok(RangeExpr { high, low })
    }
}

/// What stands before the names of wires, of regs and of ports: whether they are signed, and their range.
#[tactic(auto, unfolding(vlog_reading::specs::ReadItemParts::signed_range))]
pub fn signed_range(
    alloc: Global,
    tokens: &mut Cursor<'_>,
) -> Result<(bool, Option<RangeExpr>), ReadFault>
    ensures { Reads (spec.signed_range tokens.old) result tokens.new }
{
    let signed = tokens.eat(Word::Signed);
    let range = optional(alloc, tokens, &RangeRule, Word::OpenBracket)?;
    Ok((signed, range))
}

/// The type of a parameter that has a range.
#[tactic(auto, unfolding(vlog_reading::specs::ReadItemParts::ranged))]
fn ranged(alloc: Global, tokens: &mut Cursor<'_>) -> Result<ParamForm, ReadFault>
    ensures { Reads (spec.ranged tokens.old) result tokens.new }
{
    let signed = tokens.eat(Word::Signed);
    let range = RangeRule.read(alloc, tokens)?;
    let range = Shared::new(alloc, range)?;
    Ok(ParamForm::Ranged { signed, range })
}

/// The type of a parameter, which stands before its name.
#[tactic(auto, unfolding(vlog_reading::specs::ReadItemParts::param_form))]
pub fn param_form(alloc: Global, tokens: &mut Cursor<'_>) -> Result<ParamForm, ReadFault>
    ensures { Reads (spec.param_form tokens.old) result tokens.new }
{
    let Some(kind) = tokens.peek() else {
        return ranged(alloc, tokens);
    };
    match kind {
        TokenKind::Name(_) => Ok(ParamForm::Plain),
        TokenKind::Integer => {
            tokens.skip();
            Ok(ParamForm::Integer)
        }
        _ => ranged(alloc, tokens),
    }
}

/// The clock of an `always`, or `*`, in parentheses.
#[tactic(auto, unfolding(vlog_reading::specs::ReadItemParts::clock_inside))]
fn clock_inside(alloc: Global, tokens: &mut Cursor<'_>) -> Result<Option<ByteText>, ReadFault>
    ensures { Reads (spec.clock_inside tokens.old) result tokens.new }
{
    tokens.expect(Word::OpenParen)?;
    if tokens.eat(Word::Star) {
        tokens.expect(Word::CloseParen)?;
        return Ok(None);
    }
    tokens.expect(Word::PosEdge)?;
    let name = name_token(alloc, tokens)?;
    tokens.expect(Word::CloseParen)?;
    Ok(Some(name))
}

/// When an `always` runs: at the rising edge of a clock, or with `*` at any change.
#[tactic(auto, unfolding(vlog_reading::specs::ReadItemParts::clock))]
pub fn clock(alloc: Global, tokens: &mut Cursor<'_>) -> Result<Option<ByteText>, ReadFault>
    ensures { Reads (spec.clock tokens.old) result tokens.new }
{
    tokens.expect(Word::At)?;
    if tokens.eat(Word::Star) {
        return Ok(None);
    }
    clock_inside(alloc, tokens)
}

/// A cover, from the word `cover` on.
#[tactic(auto, unfolding(vlog_reading::specs::ReadItemParts::cover))]
pub fn cover(
    alloc: Global,
    tokens: &mut Cursor<'_>,
    label: Option<NamePlace>,
) -> Result<ItemKind, ReadFault>
    ensures { Reads (spec.cover label tokens.old) result tokens.new }
{
    let word = tokens.place();
    tokens.expect(Word::Cover)?;
    tokens.expect(Word::Property)?;
    tokens.expect(Word::OpenParen)?;
    tokens.expect(Word::At)?;
    tokens.expect(Word::OpenParen)?;
    tokens.expect(Word::PosEdge)?;
    let clock = name_token(alloc, tokens)?;
    tokens.expect(Word::CloseParen)?;
    let test = expression_before(alloc, tokens, Word::CloseParen)?;
    tokens.expect(Word::Semicolon)?;
    Ok(ItemKind::Cover {
        word,
        label,
        clock,
        test,
    })
}
