//! Names, expressions before a mark, and the heads of loops.

ghost use Rattle.vlog_reading.specs.ReadExpressions as expressions;
ghost use Rattle.vlog_reading.specs.ReadParts as spec;
ghost use Rattle.vlog_reading.specs.ReadStatements as statements;
ghost use Rattle.vlog_reading.specs.Reading.{Reads};
ghost use Rattle.vlog_cursor.specs.Words.{kind_of};

use crate::expressions::{boxed_expression, expression};
use cov_types::ByteText;
use sqlite_items::Boxed;
use std::alloc::Global;
use vlog_cursor::{Cursor, Rule, Word, copied_text};
use vlog_reading::{ForHead, ReadFault};
use vlog_tokens::TokenKind;
use vlog_tree::Expr;

/// An expression, as an item of a list.
#[derive(Drop)]
pub struct ExprRule;

impl Rule for ExprRule {
    type Tree = Expr;

    ghost reads = { λ _. expressions.expression };

    fn read(&self, alloc: Global, tokens: &mut Cursor<'_>) -> Result<Expr, ReadFault> {
        expression(alloc, tokens)
    }
}

/// A name.
#[tactic(auto, unfolding(vlog_reading::specs::ReadParts::name_token))]
pub fn name_token(alloc: Global, tokens: &mut Cursor<'_>) -> Result<ByteText, ReadFault>
    ensures { Reads (spec.name_token tokens.old) result tokens.new }
{
    let Some(kind) = tokens.peek() else {
        return Err(ReadFault::Syntax);
    };
    match kind {
        TokenKind::Name(name) => {
            tokens.skip();
            Ok(copied_text(alloc, name)?)
        }
        _ => Err(ReadFault::Syntax),
    }
}

/// An expression on the heap, and the mark after it.
#[tactic(auto, unfolding(vlog_reading::specs::ReadParts::expression_before))]
fn boxed_before(
    alloc: Global,
    tokens: &mut Cursor<'_>,
    close: Word,
) -> Result<Boxed<Expr>, ReadFault>
    ensures { Reads (spec.expression_before (kind_of close) tokens.old) result tokens.new }
{
    let inner = boxed_expression(alloc, tokens)?;
    tokens.expect(close)?;
    Ok(inner)
}

/// An expression, and the mark after it.
pub fn expression_before(
    alloc: Global,
    tokens: &mut Cursor<'_>,
    close: Word,
) -> Result<Expr, ReadFault>
    ensures { Reads (spec.expression_before (kind_of close) tokens.old) result tokens.new }
{
    let inner = boxed_before(alloc, tokens, close)?;
    Ok(inner.into_inner())
}

/// An expression in parentheses.
pub fn condition(alloc: Global, tokens: &mut Cursor<'_>) -> Result<Expr, ReadFault>
    ensures { Reads (spec.condition tokens.old) result tokens.new }
{
    tokens.expect(Word::OpenParen)?;
    expression_before(alloc, tokens, Word::CloseParen)
}

/// A name, `=`, an expression, and the mark after it.
#[tactic(auto, unfolding(vlog_reading::specs::ReadParts::bound_name))]
fn bound_name(
    alloc: Global,
    tokens: &mut Cursor<'_>,
    close: Word,
) -> Result<(ByteText, Boxed<Expr>), ReadFault>
    ensures { Reads (spec.bound_name (kind_of close) tokens.old) result tokens.new }
{
    let name = name_token(alloc, tokens)?;
    tokens.expect(Word::EqualSign)?;
    let value = boxed_before(alloc, tokens, close)?;
    Ok((name, value))
}

/// The head of a `for`.
#[tactic(auto, unfolding(vlog_reading::specs::ReadStatements::for_head))]
pub fn for_head(alloc: Global, tokens: &mut Cursor<'_>) -> Result<ForHead, ReadFault>
    ensures { Reads (statements.for_head tokens.old) result tokens.new }
{
    tokens.expect(Word::OpenParen)?;
    let (name, from) = bound_name(alloc, tokens, Word::Semicolon)?;
    let test = boxed_before(alloc, tokens, Word::Semicolon)?;
    let (step_name, step) = bound_name(alloc, tokens, Word::CloseParen)?;
    Ok(ForHead {
        name,
        from: from.into_inner(),
        test: test.into_inner(),
        step_name,
        step: step.into_inner(),
    })
}
