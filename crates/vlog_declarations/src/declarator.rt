//! What a declaration or an assignment lists.

ghost use Rattle.vlog_reading.specs.ReadItemParts as spec;

use crate::item_part::{RangeRule, ValueRule, name_place};
use std::alloc::Global;
use vlog_cursor::{Cursor, Rule, Word, optional};
use vlog_expressions::whole_target;
use vlog_reading::ReadFault;
use vlog_tree::{AssignPart, ParamName, RegName, WireName};

/// A wire, and the value that drives it.
#[derive(Drop)]
pub struct WireRule;

impl Rule for WireRule {
    type Tree = WireName;

    ghost reads = { λ _. spec.wire_name };

    #[tactic(auto, unfolding(vlog_reading::specs::ReadItemParts::wire_name))]
    fn read(&self, alloc: Global, tokens: &mut Cursor<'_>) -> Result<WireName, ReadFault> {
        let name = name_place(alloc, tokens)?;
        let value = optional(alloc, tokens, &ValueRule, Word::EqualSign)?;
        Ok(WireName { name, value })
    }
}

/// A reg, as a memory of words or with a start value.
#[derive(Drop)]
pub struct RegRule;

impl Rule for RegRule {
    type Tree = RegName;

    ghost reads = { λ _. spec.reg_name };

    #[tactic(auto, unfolding(vlog_reading::specs::ReadItemParts::reg_name, vlog_reading::specs::ReadItemParts::reg_words, vlog_reading::specs::ReadItemParts::reg_start))]
    fn read(&self, alloc: Global, tokens: &mut Cursor<'_>) -> Result<RegName, ReadFault> {
        let name = name_place(alloc, tokens)?;
        if tokens.sees(Word::OpenBracket) {
            let words = RangeRule.read(alloc, tokens)?;
            return Ok(RegName {
                name,
                words: Some(words),
                start: None,
            });
        }
        let start = optional(alloc, tokens, &ValueRule, Word::EqualSign)?;
        Ok(RegName {
            name,
            words: None,
            start,
        })
    }
}

/// A parameter and its value.
#[derive(Drop)]
pub struct ParamRule;

impl Rule for ParamRule {
    type Tree = ParamName;

    ghost reads = { λ _. spec.param_name };

    #[tactic(auto, unfolding(vlog_reading::specs::ReadItemParts::param_name))]
    fn read(&self, alloc: Global, tokens: &mut Cursor<'_>) -> Result<ParamName, ReadFault> {
        let name = name_place(alloc, tokens)?;
        let value = ValueRule.read(alloc, tokens)?;
        Ok(ParamName { name, value })
    }
}

/// A target and the value that drives it.
#[derive(Drop)]
pub struct AssignRule;

impl Rule for AssignRule {
    type Tree = AssignPart;

    ghost reads = { λ _. spec.assign_part };

    #[tactic(auto, unfolding(vlog_reading::specs::ReadItemParts::assign_part))]
    fn read(&self, alloc: Global, tokens: &mut Cursor<'_>) -> Result<AssignPart, ReadFault> {
        let target = whole_target(alloc, tokens)?;
        let value = ValueRule.read(alloc, tokens)?;
        Ok(AssignPart { target, value })
    }
}
