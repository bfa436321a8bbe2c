//! Lists with commas between, and what may be left out.

ghost use Rattle.vlog_reading.specs.ReadItemParts as parts;
ghost use Rattle.vlog_reading.specs.ReadParts as spec;
ghost use Rattle.vlog_reading.specs.Reading.{Parser, Reads};
ghost use Rattle.vlog_cursor.specs.Words.{kind_of};

use crate::cursor::Cursor;
use crate::word::Word;
use cov_types::Rows;
use std::alloc::Global;
use vlog_reading::ReadFault;

/// Something that is read from the front of tokens.
pub trait Rule {
    type Tree: Drop;

    ghost reads: { Self → Parser Self.Tree };

    fn read(&self, alloc: Global, tokens: &mut Cursor<'_>) -> Result<Self::Tree, ReadFault>
        ensures { Reads (reads self.now tokens.old) result tokens.new };
}

/// One or more, with commas between.
#[tactic(auto, unfolding(vlog_reading::specs::ReadParts::separated, vlog_reading::specs::ReadParts::separated_from))]
pub fn separated<R: Rule>(
    alloc: Global,
    tokens: &mut Cursor<'_>,
    rule: &R,
) -> Result<Rows<R::Tree>, ReadFault>
    ensures { Reads (spec.separated (R.reads rule.now) tokens.old) result tokens.new }
{
    let mut found = Rows::new(alloc);
    for _turn in 0..tokens.left() {
        found.push(rule.read(alloc, tokens)?)?;
        if !tokens.eat(Word::Comma) {
            return Ok(found);
        }
    }
    Err(ReadFault::Syntax)
}

/// One or more with commas between, and the semicolon after them.
#[tactic(auto, unfolding(vlog_reading::specs::ReadParts::listed))]
pub fn listed<R: Rule>(
    alloc: Global,
    tokens: &mut Cursor<'_>,
    rule: &R,
) -> Result<Rows<R::Tree>, ReadFault>
    ensures { Reads (spec.listed (R.reads rule.now) tokens.old) result tokens.new }
{
    let all = separated(alloc, tokens, rule)?;
    tokens.expect(Word::Semicolon)?;
    Ok(all)
}

/// One, where the word or mark that it begins with comes next.
#[tactic(auto, unfolding(vlog_reading::specs::ReadItemParts::optional))]
pub fn optional<R: Rule>(
    alloc: Global,
    tokens: &mut Cursor<'_>,
    rule: &R,
    first: Word,
) -> Result<Option<R::Tree>, ReadFault>
    ensures { Reads (parts.optional (R.reads rule.now) (kind_of first) tokens.old) result tokens.new }
{
    if !tokens.sees(first) {
        return Ok(None);
    }
    let found = rule.read(alloc, tokens)?;
    Ok(Some(found))
}
