//! Statements that hold no statements, and items of a `case`.

ghost use Rattle.vlog_reading.specs.ReadStatements as spec;
ghost use Rattle.vlog_reading.specs.Reading.{Reads, rest_of};

use cov_types::{ByteText, Rows};
use sqlite_items::Boxed;
use std::alloc::Global;
use vlog_cursor::{Cursor, Rule, Word, copied_text, separated};
use vlog_expressions::{ExprRule, expression, expression_before, name_token, whole_target};
use vlog_reading::ReadFault;
use vlog_tokens::TokenKind;
use vlog_tree::{Expr, StmtKind};

/// An item of a `case`, or where it is wild of a `casez`.
#[derive(Drop)]
pub struct CaseItemRule {
    pub wild: bool,
}

impl Rule for CaseItemRule {
    type Tree = Expr;

    ghost reads = { λ rule. spec.case_item rule.wild };

    #[tactic(auto, unfolding(vlog_reading::specs::ReadStatements::case_item))]
    fn read(&self, alloc: Global, tokens: &mut Cursor<'_>) -> Result<Expr, ReadFault> {
        let Some(kind) = tokens.peek() else {
            return expression(alloc, tokens);
        };
        match kind {
            TokenKind::Number {
                width,
                signed,
                value,
                free,
            } => {
                if self.wild && *free != 0 {
                    tokens.skip();
                    return Ok(Expr::Number {
                        width: *width,
                        signed: *signed,
                        value: *value,
                        free: *free,
                    });
                }
                expression(alloc, tokens)
            }
            _ => expression(alloc, tokens),
        }
    }
}

/// A string.
#[tactic(auto, unfolding(vlog_reading::specs::ReadStatements::text_token))]
fn text_token(alloc: Global, tokens: &mut Cursor<'_>) -> Result<ByteText, ReadFault>
    ensures { Reads (spec.text_token tokens.old) result tokens.new }
{
    let Some(kind) = tokens.peek() else {
        return Err(ReadFault::Syntax);
    };
    match kind {
        TokenKind::Text(text) => {
            tokens.skip();
            Ok(copied_text(alloc, text)?)
        }
        _ => Err(ReadFault::Syntax),
    }
}

/// The string of a `$display`, the values after it, and the parenthesis.
#[tactic(auto, unfolding(vlog_reading::specs::ReadStatements::text_and_values))]
fn text_and_values(
    alloc: Global,
    tokens: &mut Cursor<'_>,
) -> Result<(Option<ByteText>, Rows<Expr>), ReadFault>
    ensures { Reads (spec.text_and_values tokens.old) result tokens.new }
{
    let text = text_token(alloc, tokens)?;
    let mut values = Rows::new(alloc);
    if tokens.eat(Word::Comma) {
        values = separated(alloc, tokens, &ExprRule)?;
    }
    tokens.expect(Word::CloseParen)?;
    Ok((Some(text), values))
}

/// What a `$display` has in parentheses, if anything.
#[tactic(auto, unfolding(vlog_reading::specs::ReadStatements::display_arguments))]
fn display_arguments(
    alloc: Global,
    tokens: &mut Cursor<'_>,
) -> Result<(Option<ByteText>, Rows<Expr>), ReadFault>
    ensures { Reads (spec.display_arguments tokens.old) result tokens.new }
{
    if !tokens.eat(Word::OpenParen) {
        return Ok((None, Rows::new(alloc)));
    }
    if tokens.eat(Word::CloseParen) {
        return Ok((None, Rows::new(alloc)));
    }
    text_and_values(alloc, tokens)
}

/// A `$display`, after its name.
#[tactic(auto, unfolding(vlog_reading::specs::ReadStatements::display))]
fn display(alloc: Global, tokens: &mut Cursor<'_>) -> Result<StmtKind, ReadFault>
    ensures { Reads (spec.display tokens.old) result tokens.new }
{
    let (text, values) = display_arguments(alloc, tokens)?;
    tokens.expect(Word::Semicolon)?;
    Ok(StmtKind::Show { text, values })
}

/// A number without free bits.
#[tactic(auto, unfolding(vlog_reading::specs::ReadStatements::number_token))]
fn number_token(tokens: &mut Cursor<'_>) -> Result<(), ReadFault>
    ensures { Reads (spec.number_token tokens.old) result tokens.new }
{
    let Some(kind) = tokens.peek() else {
        return Err(ReadFault::Syntax);
    };
    match kind {
        TokenKind::Number { free, .. } => {
            if *free != 0 {
                return Err(ReadFault::Syntax);
            }
            tokens.skip();
            Ok(())
        }
        _ => Err(ReadFault::Syntax),
    }
}

/// The number of a `$finish` or a `$stop`, if it has one.
#[tactic(auto, unfolding(vlog_reading::specs::ReadStatements::stop_number))]
fn stop_number(tokens: &mut Cursor<'_>) -> Result<(), ReadFault>
    ensures { Reads (spec.stop_number tokens.old) result tokens.new }
{
    if !tokens.eat(Word::OpenParen) {
        return Ok(());
    }
    number_token(tokens)?;
    tokens.expect(Word::CloseParen)
}

/// What follows the name of a `$finish` or a `$stop`.
#[tactic(auto, unfolding(vlog_reading::specs::ReadStatements::stop_number_and_semicolon))]
fn stop_number_and_semicolon(tokens: &mut Cursor<'_>) -> Result<(), ReadFault>
    ensures { Reads (spec.stop_number_and_semicolon tokens.old) result tokens.new }
{
    stop_number(tokens)?;
    tokens.expect(Word::Semicolon)
}

/// A call of the system task that comes next, which has this name. Where there is no such task nothing is passed over,
/// so that the refusal has the place of its name.
#[tactic(auto, unfolding(vlog_reading::specs::ReadStatements::system_task, vlog_reading::specs::ReadStatements::stopping))]
pub fn system_task(
    alloc: Global,
    tokens: &mut Cursor<'_>,
    name: &ByteText,
) -> Result<StmtKind, ReadFault>
    ensures { Reads (spec.system_task name.now (rest_of tokens.old)) result tokens.new }
{
    if name.as_slice() == b"$display".as_slice() {
        tokens.skip();
        display(alloc, tokens)
    } else if name.as_slice() == b"$finish".as_slice() {
        tokens.skip();
        stop_number_and_semicolon(tokens)?;
        Ok(StmtKind::Finish)
    } else if name.as_slice() == b"$stop".as_slice() {
        tokens.skip();
        stop_number_and_semicolon(tokens)?;
        Ok(StmtKind::Stop)
    } else {
        Err(ReadFault::Syntax)
    }
}

/// `= value;`, after the target of a blocking assignment.
#[tactic(auto, unfolding(vlog_reading::specs::ReadStatements::blocking))]
fn blocking(
    alloc: Global,
    tokens: &mut Cursor<'_>,
    target: Boxed<Expr>,
) -> Result<StmtKind, ReadFault>
    ensures { Reads (spec.blocking target tokens.old) result tokens.new }
{
    tokens.expect(Word::EqualSign)?;
    let value = expression_before(alloc, tokens, Word::Semicolon)?;
    Ok(StmtKind::Set {
        target: target.into_inner(),
        value,
    })
}

/// An assignment, blocking or not.
#[tactic(auto, unfolding(vlog_reading::specs::ReadStatements::assignment))]
pub fn assignment(alloc: Global, tokens: &mut Cursor<'_>) -> Result<StmtKind, ReadFault>
    ensures { Reads (spec.assignment tokens.old) result tokens.new }
{
    let target = Boxed::new(alloc, whole_target(alloc, tokens)?)?;
    if !tokens.eat(Word::LessOrEqual) {
        return blocking(alloc, tokens, target);
    }
    let value = expression_before(alloc, tokens, Word::Semicolon)?;
    Ok(StmtKind::Later {
        target: target.into_inner(),
        value,
    })
}

/// The name of a block, which the tree doesn't have.
#[tactic(auto, unfolding(vlog_reading::specs::ReadStatements::block_name))]
pub fn block_name(alloc: Global, tokens: &mut Cursor<'_>) -> Result<(), ReadFault>
    ensures { Reads (spec.block_name tokens.old) result tokens.new }
{
    if tokens.eat(Word::Colon) {
        let _name = name_token(alloc, tokens)?;
    }
    Ok(())
}
