//! Items, with those that they hold; `depth` is how deep they may nest in what is read. The functions are named as what
//! they read, which begins after the word that says what item it is.

ghost use Rattle.vlog_reading.specs.ReadItems as spec;
ghost use Rattle.vlog_reading.specs.Reading.{Reads, first_kind};
ghost use Rattle.vlog_cursor.specs.Words.{kind_of};

use crate::block_name::{LabelRule, named_begin};
use crate::plain_item::{
    always, assignments, cover_or_instances, initial, parameters, regs, wires,
};
use cov_types::{Place, Rows};
use sqlite_items::{Boxed, Items};
use std::alloc::Global;
use vlog_cursor::{Cursor, Word, listed, optional};
use vlog_declarations::{NameRule, cover, name_place};
use vlog_expressions::{condition, for_head};
use vlog_reading::{ForHead, ReadFault};
use vlog_tokens::TokenKind;
use vlog_tree::{BlockPlaces, GenArm, GenBody, Item, ItemKind, NamePlace};

/// All items up to a word.
#[cycle(item)]
#[tactic(auto, unfolding(vlog_reading::specs::ReadItems::items, vlog_reading::specs::ReadItems::items_from))]
fn items(
    alloc: Global,
    tokens: &mut Cursor<'_>,
    depth: usize,
    inside: bool,
    close: Word,
) -> Result<Items<Item>, ReadFault>
    ensures { Reads (spec.items (spec.item_within depth) inside (kind_of close) tokens.old) result tokens.new }
{
    let mut found = Items::new(alloc);
    for _turn in 0..tokens.left() {
        if tokens.sees(close) {
            return Ok(found);
        }
        found.push(item(alloc, tokens, depth, inside)?)?;
    }
    Err(ReadFault::Syntax)
}

/// A generate region, up to its `endgenerate`.
#[cycle(item)]
#[tactic(auto, unfolding(vlog_reading::specs::ReadItems::generate_region))]
fn generate_region(
    alloc: Global,
    tokens: &mut Cursor<'_>,
    depth: usize,
    inside: bool,
) -> Result<ItemKind, ReadFault>
    ensures { Reads (spec.generate_region (spec.item_within depth) inside tokens.old) result tokens.new }
{
    let found = items(alloc, tokens, depth, inside, Word::EndGenerate)?;
    tokens.expect(Word::EndGenerate)?;
    Ok(ItemKind::Generate(found))
}

/// The items of a generate `for`, after its head and the `begin` of its block.
#[cycle(item)]
#[tactic(auto, unfolding(vlog_reading::specs::ReadItems::loop_items))]
fn loop_items(
    alloc: Global,
    tokens: &mut Cursor<'_>,
    depth: usize,
    head: Boxed<ForHead>,
    begun: (Place, NamePlace),
) -> Result<ItemKind, ReadFault>
    ensures { Reads (spec.loop_items (spec.item_within depth) head begun tokens.old) result tokens.new }
{
    let body = items(alloc, tokens, depth, true, Word::End)?;
    let end = tokens.place();
    tokens.expect(Word::End)?;
    let (begin, block) = begun;
    let head = head.into_inner();
    Ok(ItemKind::Loop {
        name: head.name,
        from: head.from,
        test: head.test,
        step_name: head.step_name,
        step: head.step,
        block,
        places: BlockPlaces { begin, end },
        body,
    })
}

/// A generate `for`.
#[cycle(item)]
#[tactic(auto, unfolding(vlog_reading::specs::ReadItems::generate_for))]
fn generate_for(alloc: Global, tokens: &mut Cursor<'_>, depth: usize) -> Result<ItemKind, ReadFault>
    ensures { Reads (spec.generate_for (spec.item_within depth) tokens.old) result tokens.new }
{
    let head = Boxed::new(alloc, for_head(alloc, tokens)?)?;
    let begun = named_begin(alloc, tokens)?;
    loop_items(alloc, tokens, depth, head, begun)
}

/// A branch of a generate `if` that is a block.
#[cycle(item)]
#[tactic(auto, unfolding(vlog_reading::specs::ReadItems::block_branch))]
fn block_branch(alloc: Global, tokens: &mut Cursor<'_>, depth: usize) -> Result<GenBody, ReadFault>
    ensures { Reads (spec.block_branch (spec.item_within depth) tokens.old) result tokens.new }
{
    let begin = tokens.place();
    tokens.expect(Word::Begin)?;
    let name = optional(alloc, tokens, &LabelRule, Word::Colon)?;
    let items = items(alloc, tokens, depth, true, Word::End)?;
    let end = tokens.place();
    tokens.expect(Word::End)?;
    Ok(GenBody {
        name,
        places: Some(BlockPlaces { begin, end }),
        items,
    })
}

/// A branch of a generate `if` that is one item.
#[cycle(item)]
#[tactic(auto, unfolding(vlog_reading::specs::ReadItems::single_branch))]
fn single_branch(alloc: Global, tokens: &mut Cursor<'_>, depth: usize) -> Result<GenBody, ReadFault>
    ensures { Reads (spec.single_branch (spec.item_within depth) tokens.old) result tokens.new }
{
    let one = item(alloc, tokens, depth, true)?;
    let mut items = Items::new(alloc);
    items.push(one)?;
    Ok(GenBody {
        name: None,
        places: None,
        items,
    })
}

/// A branch of a generate `if`.
#[cycle(item)]
fn branch(alloc: Global, tokens: &mut Cursor<'_>, depth: usize) -> Result<GenBody, ReadFault>
    ensures { Reads (spec.branch (spec.item_within depth) tokens.old) result tokens.new }
{
    if tokens.sees(Word::Begin) {
        return block_branch(alloc, tokens, depth);
    }
    if tokens.sees(Word::If) {
        return Err(ReadFault::Syntax);
    }
    single_branch(alloc, tokens, depth)
}

/// A test of a generate `if` and its branch.
#[cycle(item)]
#[tactic(auto, unfolding(vlog_reading::specs::ReadItems::if_arm))]
fn if_arm(alloc: Global, tokens: &mut Cursor<'_>, depth: usize) -> Result<GenArm, ReadFault>
    ensures { Reads (spec.if_arm (spec.item_within depth) tokens.old) result tokens.new }
{
    let test = Boxed::new(alloc, condition(alloc, tokens)?)?;
    let body = branch(alloc, tokens, depth)?;
    Ok(GenArm {
        test: test.into_inner(),
        body,
    })
}

/// The tests of a generate `if` with their branches, and the branch of the last `else`.
#[cycle(item)]
#[tactic(auto, unfolding(vlog_reading::specs::ReadItems::if_arms, vlog_reading::specs::ReadItems::if_arms_from, vlog_reading::specs::ReadItems::last_branch))]
fn if_arms(
    alloc: Global,
    tokens: &mut Cursor<'_>,
    depth: usize,
) -> Result<(Items<GenArm>, Option<GenBody>), ReadFault>
    ensures { Reads (spec.if_arms (spec.item_within depth) tokens.old) result tokens.new }
{
    let mut found = Items::new(alloc);
    for _turn in 0..tokens.left() {
        found.push(if_arm(alloc, tokens, depth)?)?;
        if !tokens.eat(Word::Else) {
            return Ok((found, None));
        }
        if !tokens.eat(Word::If) {
            let other = branch(alloc, tokens, depth)?;
            return Ok((found, Some(other)));
        }
    }
    Err(ReadFault::Syntax)
}

/// A generate `if`.
#[cycle(item)]
#[tactic(auto, unfolding(vlog_reading::specs::ReadItems::generate_if))]
fn generate_if(alloc: Global, tokens: &mut Cursor<'_>, depth: usize) -> Result<ItemKind, ReadFault>
    ensures { Reads (spec.generate_if (spec.item_within depth) tokens.old) result tokens.new }
{
    let (arms, last) = if_arms(alloc, tokens, depth)?;
    Ok(ItemKind::Choose { arms, last })
}

/// An item from its first token on.
#[cycle(item)]
fn kind(
    alloc: Global,
    tokens: &mut Cursor<'_>,
    depth: usize,
    inside: bool,
) -> Result<ItemKind, ReadFault>
    ensures { Reads (spec.kind_by (spec.item_within depth) inside (first_kind tokens.old) tokens.old) result tokens.new }
{
    let Some(kind) = tokens.peek() else {
        return Err(ReadFault::Syntax);
    };
    match kind {
        TokenKind::Wire => {
            tokens.skip();
            wires(alloc, tokens)
        }
        TokenKind::Reg => {
            tokens.skip();
            regs(alloc, tokens)
        }
        TokenKind::Integer => {
            tokens.skip();
            Ok(ItemKind::Integer(listed(alloc, tokens, &NameRule)?))
        }
        TokenKind::GenVar => {
            tokens.skip();
            Ok(ItemKind::Genvar(listed(alloc, tokens, &NameRule)?))
        }
        TokenKind::Parameter => {
            if inside {
                return Err(ReadFault::Syntax);
            }
            tokens.skip();
            parameters(alloc, tokens, false)
        }
        TokenKind::LocalParam => {
            tokens.skip();
            parameters(alloc, tokens, true)
        }
        TokenKind::Assign => {
            tokens.skip();
            assignments(alloc, tokens)
        }
        TokenKind::Initial => {
            tokens.skip();
            initial(alloc, tokens)
        }
        TokenKind::Always => {
            tokens.skip();
            always(alloc, tokens)
        }
        TokenKind::Cover => cover(alloc, tokens, None),
        TokenKind::Name(_) => {
            let name = name_place(alloc, tokens)?;
            cover_or_instances(alloc, tokens, name)
        }
        TokenKind::Generate => {
            tokens.skip();
            generate_region(alloc, tokens, depth, inside)
        }
        TokenKind::For => {
            tokens.skip();
            generate_for(alloc, tokens, depth)
        }
        TokenKind::If => {
            tokens.skip();
            generate_if(alloc, tokens, depth)
        }
        _ => Err(ReadFault::Syntax),
    }
}

/// An item, where none may nest deeper.
#[cycle(item)]
#[tactic(auto, unfolding(vlog_reading::specs::ReadItems::item_within, vlog_reading::specs::ReadItems::layer))]
fn item(
    alloc: Global,
    tokens: &mut Cursor<'_>,
    depth: usize,
    inside: bool,
) -> Result<Item, ReadFault>
    ensures { Reads (spec.item_within depth inside tokens.old) result tokens.new }
{
    if depth == 0 {
        return Err(ReadFault::Syntax);
    }
    let place = tokens.place();
    let what = kind(alloc, tokens, depth - 1, inside)?;
    Ok(Item { place, what })
}

/// All items up to a word, with whatever is in them.
#[tactic(auto, unfolding(vlog_reading::specs::ReadItems::whole_items, vlog_reading::specs::ReadItems::items, vlog_reading::specs::ReadItems::items_from))]
pub fn whole_items(
    alloc: Global,
    tokens: &mut Cursor<'_>,
    close: Word,
) -> Result<Rows<Item>, ReadFault>
    ensures { Reads (spec.whole_items (kind_of close) tokens.old) result tokens.new }
{
    let depth = tokens.left();
    let mut found = Rows::new(alloc);
    for _turn in 0..depth {
        if tokens.sees(close) {
            return Ok(found);
        }
        found.push(item(alloc, tokens, depth, false)?)?;
    }
    Err(ReadFault::Syntax)
}
