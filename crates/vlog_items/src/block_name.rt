//! The names of generate blocks.

ghost use Rattle.vlog_reading.specs.ReadItems as spec;
ghost use Rattle.vlog_reading.specs.Reading.{Reads};

use cov_types::Place;
use std::alloc::Global;
use vlog_cursor::{Cursor, Rule, Word};
use vlog_declarations::name_place;
use vlog_reading::ReadFault;
use vlog_tree::NamePlace;

/// `:` and the name of a block.
#[derive(Drop)]
pub(crate) struct LabelRule;

impl Rule for LabelRule {
    type Tree = NamePlace;

    ghost reads = { λ _. spec.block_label };

    #[tactic(auto, unfolding(vlog_reading::specs::ReadItems::block_label))]
    fn read(&self, alloc: Global, tokens: &mut Cursor<'_>) -> Result<NamePlace, ReadFault> {
        tokens.expect(Word::Colon)?;
        name_place(alloc, tokens)
    }
}

/// A `begin` with the name of its block, and the place of the `begin`.
#[tactic(auto, unfolding(vlog_reading::specs::ReadItems::named_begin))]
pub(crate) fn named_begin(
    alloc: Global,
    tokens: &mut Cursor<'_>,
) -> Result<(Place, NamePlace), ReadFault>
    ensures { Reads (spec.named_begin tokens.old) result tokens.new }
{
    let begin = tokens.place();
    tokens.expect(Word::Begin)?;
    let block = LabelRule.read(alloc, tokens)?;
    Ok((begin, block))
}
