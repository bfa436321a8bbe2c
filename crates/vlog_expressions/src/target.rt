//! Targets of assignments; `depth` is how deep they may nest.

ghost use Rattle.vlog_reading.specs.ReadStatements as statements;
ghost use Rattle.vlog_reading.specs.Reading.{Reads};

use crate::expressions::part_of;
use sqlite_items::Items;
use std::alloc::Global;
use vlog_cursor::{Cursor, Word, copied_text};
use vlog_reading::ReadFault;
use vlog_tokens::TokenKind;
use vlog_tree::Expr;

/// Targets with commas between.
#[cycle(target)]
#[tactic(auto, unfolding(vlog_reading::specs::ReadStatements::targets, vlog_reading::specs::ReadStatements::targets_from))]
fn targets(alloc: Global, tokens: &mut Cursor<'_>, depth: usize) -> Result<Items<Expr>, ReadFault>
    ensures { Reads (statements.targets (statements.target depth) tokens.old) result tokens.new }
{
    let mut found = Items::new(alloc);
    for _turn in 0..tokens.left() {
        found.push(target(alloc, tokens, depth)?)?;
        if !tokens.eat(Word::Comma) {
            return Ok(found);
        }
    }
    Err(ReadFault::Syntax)
}

/// A part of a name, or targets in braces.
#[cycle(target)]
#[tactic(auto, unfolding(vlog_reading::specs::ReadStatements::target_layer))]
fn target_layer(alloc: Global, tokens: &mut Cursor<'_>, depth: usize) -> Result<Expr, ReadFault>
    ensures { Reads (statements.target_layer (statements.target depth) tokens.old) result tokens.new }
{
    let Some(kind) = tokens.peek() else {
        return Err(ReadFault::Syntax);
    };
    match kind {
        TokenKind::Name(name) => {
            tokens.skip();
            let name = copied_text(alloc, name)?;
            part_of(alloc, tokens, name)
        }
        TokenKind::OpenBrace => {
            tokens.skip();
            let all = targets(alloc, tokens, depth)?;
            tokens.expect(Word::CloseBrace)?;
            Ok(Expr::Join(all))
        }
        _ => Err(ReadFault::Syntax),
    }
}

/// A target, where none may nest deeper.
#[cycle(target)]
#[tactic(auto, unfolding(vlog_reading::specs::ReadStatements::target))]
fn target(alloc: Global, tokens: &mut Cursor<'_>, depth: usize) -> Result<Expr, ReadFault>
    ensures { Reads (statements.target depth tokens.old) result tokens.new }
{
    if depth == 0 {
        return Err(ReadFault::Syntax);
    }
    target_layer(alloc, tokens, depth - 1)
}

/// What an assignment writes to.
#[tactic(auto, unfolding(vlog_reading::specs::ReadStatements::whole_target))]
pub fn whole_target(alloc: Global, tokens: &mut Cursor<'_>) -> Result<Expr, ReadFault>
    ensures { Reads (statements.whole_target tokens.old) result tokens.new }
{
    let depth = tokens.left();
    target(alloc, tokens, depth)
}
