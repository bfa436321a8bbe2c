//! Statements; `depth` is how deep they may nest in what is read. The functions are named as what they read, which
//! begins after the word that says what statement it is.

ghost use Rattle.vlog_reading.specs.ReadStatements as spec;
ghost use Rattle.vlog_reading.specs.Reading.{Reads, first_kind};

use crate::leaf_statement::{CaseItemRule, assignment, block_name, system_task};
use cov_types::Rows;
use sqlite_items::{Boxed, Items};
use std::alloc::Global;
use vlog_cursor::{Cursor, Word, separated};
use vlog_expressions::{condition, for_head};
use vlog_reading::ReadFault;
use vlog_tokens::TokenKind;
use vlog_tree::{CaseArm, Stmt, StmtKind};

/// The statements of a block, up to its `end`.
#[cycle(statement)]
#[tactic(auto, unfolding(vlog_reading::specs::ReadStatements::body, vlog_reading::specs::ReadStatements::body_from))]
fn body(alloc: Global, tokens: &mut Cursor<'_>, depth: usize) -> Result<Items<Stmt>, ReadFault>
    ensures { Reads (spec.body (spec.statement depth) tokens.old) result tokens.new }
{
    let mut found = Items::new(alloc);
    for _turn in 0..tokens.left() {
        if tokens.sees(Word::End) {
            return Ok(found);
        }
        found.push(statement(alloc, tokens, depth)?)?;
    }
    Err(ReadFault::Syntax)
}

/// A block, after its `begin`.
#[cycle(statement)]
#[tactic(auto, unfolding(vlog_reading::specs::ReadStatements::block))]
fn block(alloc: Global, tokens: &mut Cursor<'_>, depth: usize) -> Result<StmtKind, ReadFault>
    ensures { Reads (spec.block (spec.statement depth) tokens.old) result tokens.new }
{
    block_name(alloc, tokens)?;
    let body = body(alloc, tokens, depth)?;
    let last = tokens.place();
    tokens.expect(Word::End)?;
    Ok(StmtKind::Block { body, last })
}

/// What `else` is followed by, where it comes next.
#[cycle(statement)]
#[tactic(auto, unfolding(vlog_reading::specs::ReadStatements::else_part))]
fn else_part(
    alloc: Global,
    tokens: &mut Cursor<'_>,
    depth: usize,
) -> Result<Option<Boxed<Stmt>>, ReadFault>
    ensures { Reads (spec.else_part (spec.statement depth) tokens.old) result tokens.new }
{
    if !tokens.eat(Word::Else) {
        return Ok(None);
    }
    let second = statement(alloc, tokens, depth)?;
    Ok(Some(Boxed::new(alloc, second)?))
}

/// An `if`: its test, its statement and what its `else` has.
#[cycle(statement)]
#[tactic(auto, unfolding(vlog_reading::specs::ReadStatements::if_statement))]
fn if_statement(alloc: Global, tokens: &mut Cursor<'_>, depth: usize) -> Result<StmtKind, ReadFault>
    ensures { Reads (spec.if_statement (spec.statement depth) tokens.old) result tokens.new }
{
    let on = Boxed::new(alloc, condition(alloc, tokens)?)?;
    let yes = Boxed::new(alloc, statement(alloc, tokens, depth)?)?;
    let no = else_part(alloc, tokens, depth)?;
    Ok(StmtKind::If {
        test: on.into_inner(),
        yes,
        no,
    })
}

/// A `for`: its head and its body.
#[cycle(statement)]
#[tactic(auto, unfolding(vlog_reading::specs::ReadStatements::for_statement))]
fn for_statement(
    alloc: Global,
    tokens: &mut Cursor<'_>,
    depth: usize,
) -> Result<StmtKind, ReadFault>
    ensures { Reads (spec.for_statement (spec.statement depth) tokens.old) result tokens.new }
{
    let head = Boxed::new(alloc, for_head(alloc, tokens)?)?;
    let body = Boxed::new(alloc, statement(alloc, tokens, depth)?)?;
    let head = head.into_inner();
    Ok(StmtKind::For {
        name: head.name,
        from: head.from,
        test: head.test,
        step_name: head.step_name,
        step: head.step,
        body,
    })
}

/// An arm of a `case` with its items.
#[cycle(statement)]
#[tactic(auto, unfolding(vlog_reading::specs::ReadStatements::listed_arm))]
fn listed_arm(
    alloc: Global,
    tokens: &mut Cursor<'_>,
    depth: usize,
    wild: bool,
) -> Result<CaseArm, ReadFault>
    ensures { Reads (spec.listed_arm (spec.statement depth) wild tokens.old) result tokens.new }
{
    let place = tokens.place();
    let items = separated(alloc, tokens, &CaseItemRule { wild })?;
    tokens.expect(Word::Colon)?;
    let body = statement(alloc, tokens, depth)?;
    Ok(CaseArm { place, items, body })
}

/// The `default` of a `case`.
#[cycle(statement)]
#[tactic(auto, unfolding(vlog_reading::specs::ReadStatements::default_arm))]
fn default_arm(alloc: Global, tokens: &mut Cursor<'_>, depth: usize) -> Result<CaseArm, ReadFault>
    ensures { Reads (spec.default_arm (spec.statement depth) tokens.old) result tokens.new }
{
    let place = tokens.place();
    tokens.expect(Word::Default)?;
    let _colon = tokens.eat(Word::Colon);
    let items = Rows::new(alloc);
    let body = statement(alloc, tokens, depth)?;
    Ok(CaseArm { place, items, body })
}

/// An arm of a `case`.
#[cycle(statement)]
#[tactic(auto, unfolding(vlog_reading::specs::ReadStatements::arm_or_default))]
fn arm_or_default(
    alloc: Global,
    tokens: &mut Cursor<'_>,
    depth: usize,
    wild: bool,
) -> Result<CaseArm, ReadFault>
    ensures { Reads (spec.arm_or_default (spec.statement depth) wild tokens.old) result tokens.new }
{
    if tokens.sees(Word::Default) {
        default_arm(alloc, tokens, depth)
    } else {
        listed_arm(alloc, tokens, depth, wild)
    }
}

/// The arms of a `case`, with one `default` at most.
#[cycle(statement)]
#[tactic(auto, unfolding(vlog_reading::specs::ReadStatements::arms, vlog_reading::specs::ReadStatements::arms_from))]
fn arms(
    alloc: Global,
    tokens: &mut Cursor<'_>,
    depth: usize,
    wild: bool,
) -> Result<Items<CaseArm>, ReadFault>
    ensures { Reads (spec.arms (spec.statement depth) wild tokens.old) result tokens.new }
{
    let mut found = Items::new(alloc);
    let mut seen = false;
    for _turn in 0..tokens.left() {
        let is_default = tokens.sees(Word::Default);
        if is_default && seen {
            return Err(ReadFault::Syntax);
        }
        found.push(arm_or_default(alloc, tokens, depth, wild)?)?;
        if tokens.sees(Word::EndCase) {
            return Ok(found);
        }
        seen = is_default || seen;
    }
    Err(ReadFault::Syntax)
}

/// A `case`, or where it is `wild` a `casez`.
#[cycle(statement)]
#[tactic(auto, unfolding(vlog_reading::specs::ReadStatements::case_statement))]
fn case_statement(
    alloc: Global,
    tokens: &mut Cursor<'_>,
    depth: usize,
    wild: bool,
) -> Result<StmtKind, ReadFault>
    ensures { Reads (spec.case_statement (spec.statement depth) wild tokens.old) result tokens.new }
{
    let on = Boxed::new(alloc, condition(alloc, tokens)?)?;
    let arms = arms(alloc, tokens, depth, wild)?;
    tokens.expect(Word::EndCase)?;
    Ok(StmtKind::Case {
        wild,
        on: on.into_inner(),
        arms,
    })
}

/// A statement from its first token on.
#[cycle(statement)]
fn kind(alloc: Global, tokens: &mut Cursor<'_>, depth: usize) -> Result<StmtKind, ReadFault>
    ensures { Reads (spec.kind_by (spec.statement depth) (first_kind tokens.old) tokens.old) result tokens.new }
{
    let Some(kind) = tokens.peek() else {
        return Err(ReadFault::Syntax);
    };
    match kind {
        TokenKind::Semicolon => {
            tokens.skip();
            Ok(StmtKind::Empty)
        }
        TokenKind::Begin => {
            tokens.skip();
            block(alloc, tokens, depth)
        }
        TokenKind::If => {
            tokens.skip();
            if_statement(alloc, tokens, depth)
        }
        TokenKind::Case => {
            tokens.skip();
            case_statement(alloc, tokens, depth, false)
        }
        TokenKind::CaseZ => {
            tokens.skip();
            case_statement(alloc, tokens, depth, true)
        }
        TokenKind::For => {
            tokens.skip();
            for_statement(alloc, tokens, depth)
        }
        TokenKind::System(name) => system_task(alloc, tokens, name),
        TokenKind::Name(_) => assignment(alloc, tokens),
        TokenKind::OpenBrace => assignment(alloc, tokens),
        _ => Err(ReadFault::Syntax),
    }
}

/// A statement, where none may nest deeper.
#[cycle(statement)]
#[tactic(auto, unfolding(vlog_reading::specs::ReadStatements::statement, vlog_reading::specs::ReadStatements::layer))]
fn statement(alloc: Global, tokens: &mut Cursor<'_>, depth: usize) -> Result<Stmt, ReadFault>
    ensures { Reads (spec.statement depth tokens.old) result tokens.new }
{
    if depth == 0 {
        return Err(ReadFault::Syntax);
    }
    let place = tokens.place();
    let what = kind(alloc, tokens, depth - 1)?;
    Ok(Stmt { place, what })
}

/// A statement with whatever is in it.
#[tactic(auto, unfolding(vlog_reading::specs::ReadStatements::whole_statement))]
pub fn whole_statement(alloc: Global, tokens: &mut Cursor<'_>) -> Result<Stmt, ReadFault>
    ensures { Reads (spec.whole_statement tokens.old) result tokens.new }
{
    let depth = tokens.left();
    statement(alloc, tokens, depth)
}
