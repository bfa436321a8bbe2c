//! Expressions, by precedence climbing. The functions are named as what they read; `depth` is how deep expressions may
//! nest in what is read, and a level is that of a binary operator. What is read is held on the heap, where the node around
//! it wants it.

ghost use Rattle.std.specs.Prelude.{◌≡◌, ◌∷◌, [], Some};
ghost use Rattle.vlog_reading.specs.ReadExpressions as spec;
ghost use Rattle.vlog_reading.specs.ReadParts as parts;
ghost use Rattle.vlog_reading.specs.Reading.{Reads};
ghost use Rattle.vlog_cursor.specs.Words.{kind_of};

use crate::node::{only, selected};
use cov_types::ByteText;
use sqlite_items::{Boxed, Items};
use std::alloc::Global;
use vlog_cursor::{Cursor, Word, copied_text, prefix, system_call};
use vlog_reading::ReadFault;
use vlog_tokens::TokenKind;
use vlog_tree::{Expr, Select, SystemCall};

/// An expression and the mark after it.
#[cycle(expression)]
#[tactic(auto, unfolding(vlog_reading::specs::ReadExpressions::nested_before))]
fn nested_before(
    alloc: Global,
    tokens: &mut Cursor<'_>,
    depth: usize,
    close: Word,
) -> Result<Boxed<Expr>, ReadFault>
    ensures { Reads (spec.nested_before (spec.expr depth) (kind_of close) tokens.old) result tokens.new }
{
    let inner = expr(alloc, tokens, depth, 1)?;
    tokens.expect(close)?;
    Ok(inner)
}

/// Expressions with commas between, put behind those that were found.
#[cycle(expression)]
#[tactic(auto, unfolding(vlog_reading::specs::ReadExpressions::list, vlog_reading::specs::ReadExpressions::list_from))]
fn list(
    alloc: Global,
    tokens: &mut Cursor<'_>,
    depth: usize,
    mut found: Items<Expr>,
) -> Result<Items<Expr>, ReadFault>
    ensures { Reads (spec.list (spec.expr depth) found tokens.old) result tokens.new }
{
    for _turn in 0..tokens.left() {
        let next = expr(alloc, tokens, depth, 1)?;
        found.push(next.into_inner())?;
        if !tokens.eat(Word::Comma) {
            return Ok(found);
        }
    }
    Err(ReadFault::Syntax)
}

/// `{part, ..}}` of a replication, after its count.
#[cycle(expression)]
#[tactic(auto, unfolding(vlog_reading::specs::ReadExpressions::repeated))]
fn repeated(
    alloc: Global,
    tokens: &mut Cursor<'_>,
    depth: usize,
    count: Boxed<Expr>,
) -> Result<Expr, ReadFault>
    ensures { Reads (spec.repeated (spec.expr depth) count tokens.old) result tokens.new }
{
    let parts = list(alloc, tokens, depth, Items::new(alloc))?;
    tokens.expect(Word::CloseBrace)?;
    tokens.expect(Word::CloseBrace)?;
    Ok(Expr::Repeat { count, parts })
}

/// The parts of a concatenation, of which the first has been read.
#[cycle(expression)]
#[tactic(auto, unfolding(vlog_reading::specs::ReadExpressions::others))]
fn others(
    alloc: Global,
    tokens: &mut Cursor<'_>,
    depth: usize,
    first: Boxed<Expr>,
) -> Result<Items<Expr>, ReadFault>
    ensures { Reads (spec.others (spec.expr depth) first tokens.old) result tokens.new }
{
    let all = only(alloc, first.into_inner())?;
    if !tokens.eat(Word::Comma) {
        return Ok(all);
    }
    list(alloc, tokens, depth, all)
}

/// A concatenation, of which the brace and the first part have been read.
#[cycle(expression)]
#[tactic(auto, unfolding(vlog_reading::specs::ReadExpressions::joined))]
fn joined(
    alloc: Global,
    tokens: &mut Cursor<'_>,
    depth: usize,
    first: Boxed<Expr>,
) -> Result<Expr, ReadFault>
    ensures { Reads (spec.joined (spec.expr depth) first tokens.old) result tokens.new }
{
    let all = others(alloc, tokens, depth, first)?;
    tokens.expect(Word::CloseBrace)?;
    Ok(Expr::Join(all))
}

/// A concatenation or a replication, after its first brace.
#[cycle(expression)]
#[tactic(auto, unfolding(vlog_reading::specs::ReadExpressions::in_braces))]
fn in_braces(alloc: Global, tokens: &mut Cursor<'_>, depth: usize) -> Result<Expr, ReadFault>
    ensures { Reads (spec.in_braces (spec.expr depth) tokens.old) result tokens.new }
{
    let first = expr(alloc, tokens, depth, 1)?;
    if tokens.eat(Word::OpenBrace) {
        return repeated(alloc, tokens, depth, first);
    }
    joined(alloc, tokens, depth, first)
}

/// `+: width]` or `-: width]`, after the first expression of a select.
#[cycle(expression)]
#[tactic(auto, unfolding(vlog_reading::specs::ReadExpressions::slice_by_width))]
fn slice_by_width(
    alloc: Global,
    tokens: &mut Cursor<'_>,
    depth: usize,
    first: Boxed<Expr>,
) -> Result<Select, ReadFault>
    ensures { Reads (spec.slice_by_width (spec.expr depth) first tokens.old) result tokens.new }
{
    if tokens.eat(Word::PlusColon) {
        let width = nested_before(alloc, tokens, depth, Word::CloseBracket)?;
        return Ok(Select::Up(first, width));
    }
    tokens.expect(Word::MinusColon)?;
    let width = nested_before(alloc, tokens, depth, Word::CloseBracket)?;
    Ok(Select::Down(first, width))
}

/// What follows the first expression of a select that takes several bits.
#[cycle(expression)]
#[tactic(auto, unfolding(vlog_reading::specs::ReadExpressions::slice))]
fn slice(
    alloc: Global,
    tokens: &mut Cursor<'_>,
    depth: usize,
    first: Boxed<Expr>,
) -> Result<Select, ReadFault>
    ensures { Reads (spec.slice (spec.expr depth) first tokens.old) result tokens.new }
{
    if !tokens.eat(Word::Colon) {
        return slice_by_width(alloc, tokens, depth, first);
    }
    let low = nested_before(alloc, tokens, depth, Word::CloseBracket)?;
    Ok(Select::Between(first, low))
}

/// A select of any form, after its bracket.
#[cycle(expression)]
#[tactic(auto, unfolding(vlog_reading::specs::ReadExpressions::select))]
fn select(alloc: Global, tokens: &mut Cursor<'_>, depth: usize) -> Result<Select, ReadFault>
    ensures { Reads (spec.select (spec.expr depth) tokens.old) result tokens.new }
{
    let first = expr(alloc, tokens, depth, 1)?;
    if tokens.eat(Word::CloseBracket) {
        return Ok(Select::At(first));
    }
    slice(alloc, tokens, depth, first)
}

/// The second select of a name whose first one, of one position, is `base`; or `base` where none follows.
#[cycle(expression)]
#[tactic(auto, unfolding(vlog_reading::specs::ReadExpressions::second_select))]
fn second_select(
    alloc: Global,
    tokens: &mut Cursor<'_>,
    depth: usize,
    base: Expr,
) -> Result<Expr, ReadFault>
    ensures { Reads (spec.second_select (spec.expr depth) base tokens.old) result tokens.new }
{
    if !tokens.eat(Word::OpenBracket) {
        return Ok(base);
    }
    let base = Boxed::new(alloc, base)?;
    let select = select(alloc, tokens, depth)?;
    Ok(Expr::Select { base, select })
}

/// The part of a name, after its first bracket.
#[cycle(expression)]
#[tactic(auto, unfolding(vlog_reading::specs::ReadExpressions::part_after_bracket))]
fn part_after_bracket(
    alloc: Global,
    tokens: &mut Cursor<'_>,
    depth: usize,
    name: ByteText,
) -> Result<Expr, ReadFault>
    ensures { Reads (spec.part_after_bracket (spec.expr depth) name tokens.old) result tokens.new }
{
    let first = expr(alloc, tokens, depth, 1)?;
    if tokens.eat(Word::CloseBracket) {
        let base = selected(alloc, Expr::Name(name), Select::At(first))?;
        return second_select(alloc, tokens, depth, base);
    }
    let some = slice(alloc, tokens, depth, first)?;
    Ok(selected(alloc, Expr::Name(name), some)?)
}

/// A name with its selects, after the name.
#[cycle(expression)]
#[tactic(auto, unfolding(vlog_reading::specs::ReadExpressions::part_after_name))]
fn part_after_name(
    alloc: Global,
    tokens: &mut Cursor<'_>,
    depth: usize,
    name: ByteText,
) -> Result<Expr, ReadFault>
    ensures { Reads (spec.part_after_name (spec.expr depth) name tokens.old) result tokens.new }
{
    if !tokens.eat(Word::OpenBracket) {
        return Ok(Expr::Name(name));
    }
    part_after_bracket(alloc, tokens, depth, name)
}

/// The argument of a system function, after its name.
#[cycle(expression)]
fn system_function(
    alloc: Global,
    tokens: &mut Cursor<'_>,
    depth: usize,
    name: SystemCall,
) -> Result<Expr, ReadFault>
    ensures { Reads (spec.system_function (spec.expr depth) (Some name) tokens.old) result tokens.new }
{
    tokens.expect(Word::OpenParen)?;
    let of = nested_before(alloc, tokens, depth, Word::CloseParen)?;
    Ok(Expr::Call { name, of })
}

/// A primary with the unary operators before it.
#[cycle(expression)]
#[tactic(auto, unfolding(vlog_reading::specs::ReadExpressions::unary_or_primary))]
fn unary_or_primary(alloc: Global, tokens: &mut Cursor<'_>, depth: usize) -> Result<Expr, ReadFault>
    ensures { Reads (spec.unary_or_primary (spec.expr depth) tokens.old) result tokens.new }
{
    let Some(kind) = tokens.peek() else {
        return Err(ReadFault::Syntax);
    };
    match kind {
        TokenKind::Number {
            width,
            signed,
            value,
            free,
        } => {
            if *free != 0 {
                return Err(ReadFault::Syntax);
            }
            tokens.skip();
            Ok(Expr::Number {
                width: *width,
                signed: *signed,
                value: *value,
                free: *free,
            })
        }
        TokenKind::Name(name) => {
            tokens.skip();
            let name = copied_text(alloc, name)?;
            part_after_name(alloc, tokens, depth, name)
        }
        TokenKind::System(name) => match system_call(name) {
            None => Err(ReadFault::Syntax),
            Some(name) => {
                tokens.skip();
                system_function(alloc, tokens, depth, name)
            }
        },
        TokenKind::OpenParen => {
            tokens.skip();
            let inner = nested_before(alloc, tokens, depth, Word::CloseParen)?;
            Ok(inner.into_inner())
        }
        TokenKind::OpenBrace => {
            tokens.skip();
            in_braces(alloc, tokens, depth)
        }
        _ => match prefix(kind) {
            None => Err(ReadFault::Syntax),
            Some(op) => {
                tokens.skip();
                let of = expr(alloc, tokens, depth, 12)?;
                Ok(Expr::Unary { op, of })
            }
        },
    }
}

/// The operators of this level and above and their operands, after the first operand.
#[cycle(expression)]
#[tactic(auto, unfolding(vlog_reading::specs::ReadExpressions::binary_rest, vlog_reading::specs::ReadExpressions::climb))]
fn binary_rest(
    alloc: Global,
    tokens: &mut Cursor<'_>,
    depth: usize,
    least: usize,
    mut left: Boxed<Expr>,
) -> Result<Boxed<Expr>, ReadFault>
    ensures { Reads (spec.binary_rest (spec.expr depth) least left tokens.old) result tokens.new }
{
    for _turn in 0..tokens.left() + 1 {
        let Some((level, op)) = tokens.infix() else {
            return Ok(left);
        };
        if level < least {
            return Ok(left);
        }
        tokens.skip();
        let right = expr(alloc, tokens, depth, level + 1)?;
        left = Boxed::new(alloc, Expr::Binary { op, left, right })?;
    }
    Err(ReadFault::Syntax)
}

/// `? yes : no`, after the test; or the test alone where no `?` follows.
#[cycle(expression)]
#[tactic(auto, unfolding(vlog_reading::specs::ReadExpressions::conditional_rest))]
fn conditional_rest(
    alloc: Global,
    tokens: &mut Cursor<'_>,
    depth: usize,
    test: Boxed<Expr>,
) -> Result<Boxed<Expr>, ReadFault>
    ensures { Reads (spec.conditional_rest (spec.expr depth) test tokens.old) result tokens.new }
{
    if !tokens.eat(Word::Question) {
        return Ok(test);
    }
    let yes = nested_before(alloc, tokens, depth, Word::Colon)?;
    let no = expr(alloc, tokens, depth, 1)?;
    Ok(Boxed::new(alloc, Expr::Choose { test, yes, no })?)
}

/// An expression of at least this level.
#[cycle(expression)]
#[tactic(auto, unfolding(vlog_reading::specs::ReadExpressions::at_level))]
fn at_level(
    alloc: Global,
    tokens: &mut Cursor<'_>,
    depth: usize,
    least: usize,
) -> Result<Boxed<Expr>, ReadFault>
    ensures { Reads (spec.at_level (spec.expr depth) least tokens.old) result tokens.new }
{
    let first = Boxed::new(alloc, unary_or_primary(alloc, tokens, depth)?)?;
    let all = binary_rest(alloc, tokens, depth, least.max(2), first)?;
    if least < 2 {
        conditional_rest(alloc, tokens, depth, all)
    } else {
        Ok(all)
    }
}

/// An expression of at least this level, where none may nest deeper.
#[cycle(expression)]
#[tactic(auto, unfolding(vlog_reading::specs::ReadExpressions::expr))]
fn expr(
    alloc: Global,
    tokens: &mut Cursor<'_>,
    depth: usize,
    least: usize,
) -> Result<Boxed<Expr>, ReadFault>
    ensures { Reads (spec.expr depth least tokens.old) result tokens.new }
{
    if depth == 0 {
        return Err(ReadFault::Syntax);
    }
    at_level(alloc, tokens, depth - 1, least)
}

/// An expression with whatever is in it, on the heap.
#[tactic(auto, unfolding(vlog_reading::specs::ReadExpressions::expression))]
pub(crate) fn boxed_expression(
    alloc: Global,
    tokens: &mut Cursor<'_>,
) -> Result<Boxed<Expr>, ReadFault>
    ensures { Reads (spec.expression tokens.old) result tokens.new }
{
    let depth = tokens.left();
    expr(alloc, tokens, depth, 1)
}

/// An expression with whatever is in it.
pub fn expression(alloc: Global, tokens: &mut Cursor<'_>) -> Result<Expr, ReadFault>
    ensures { Reads (spec.expression tokens.old) result tokens.new }
{
    let whole = boxed_expression(alloc, tokens)?;
    Ok(whole.into_inner())
}

/// After a name: the part of it that is written to.
#[tactic(auto, unfolding(vlog_reading::specs::ReadParts::part_of))]
pub fn part_of(alloc: Global, tokens: &mut Cursor<'_>, name: ByteText) -> Result<Expr, ReadFault>
    ensures { Reads (parts.part_of name tokens.old) result tokens.new }
{
    let depth = tokens.left();
    part_after_name(alloc, tokens, depth, name)
}
