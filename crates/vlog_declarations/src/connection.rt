//! Connections of instances, and the values for their parameters.

ghost use Rattle.vlog_reading.specs.ReadItemParts as spec;
ghost use Rattle.vlog_reading.specs.Reading.{Reads};

use crate::item_part::name_place;
use cov_types::Rows;
use std::alloc::Global;
use vlog_cursor::{Cursor, Rule, Word, separated};
use vlog_expressions::{ExprRule, expression_before, name_token};
use vlog_reading::ReadFault;
use vlog_tree::{Conns, Instance, NamedConn};

/// A connection by name.
#[derive(Drop)]
pub struct NamedConnRule;

impl Rule for NamedConnRule {
    type Tree = NamedConn;

    ghost reads = { λ _. spec.named_conn };

    #[tactic(auto, unfolding(vlog_reading::specs::ReadItemParts::named_conn))]
    fn read(&self, alloc: Global, tokens: &mut Cursor<'_>) -> Result<NamedConn, ReadFault> {
        tokens.expect(Word::Dot)?;
        let name = name_token(alloc, tokens)?;
        tokens.expect(Word::OpenParen)?;
        if tokens.eat(Word::CloseParen) {
            return Ok(NamedConn { name, value: None });
        }
        let value = Some(expression_before(alloc, tokens, Word::CloseParen)?);
        Ok(NamedConn { name, value })
    }
}

/// Connections by name, and the parenthesis after them.
#[tactic(auto, unfolding(vlog_reading::specs::ReadItemParts::connections_by_name))]
fn connections_by_name(alloc: Global, tokens: &mut Cursor<'_>) -> Result<Conns, ReadFault>
    ensures { Reads (spec.connections_by_name tokens.old) result tokens.new }
{
    let all = separated(alloc, tokens, &NamedConnRule)?;
    tokens.expect(Word::CloseParen)?;
    Ok(Conns::Named(all))
}

/// Connections in the order of the ports, and the parenthesis after them.
#[tactic(auto, unfolding(vlog_reading::specs::ReadItemParts::connections_in_order))]
fn connections_in_order(alloc: Global, tokens: &mut Cursor<'_>) -> Result<Conns, ReadFault>
    ensures { Reads (spec.connections_in_order tokens.old) result tokens.new }
{
    let all = separated(alloc, tokens, &ExprRule)?;
    tokens.expect(Word::CloseParen)?;
    Ok(Conns::Ordered(all))
}

/// Connections in their parentheses.
#[tactic(auto, unfolding(vlog_reading::specs::ReadItemParts::connections))]
fn connections(alloc: Global, tokens: &mut Cursor<'_>) -> Result<Conns, ReadFault>
    ensures { Reads (spec.connections tokens.old) result tokens.new }
{
    tokens.expect(Word::OpenParen)?;
    if tokens.eat(Word::CloseParen) {
        return Ok(Conns::Ordered(Rows::new(alloc)));
    }
    if tokens.sees(Word::Dot) {
        connections_by_name(alloc, tokens)
    } else {
        connections_in_order(alloc, tokens)
    }
}

/// The values for the parameters of instances; none where none are written.
#[tactic(auto, unfolding(vlog_reading::specs::ReadItemParts::parameter_values))]
pub fn parameter_values(alloc: Global, tokens: &mut Cursor<'_>) -> Result<Conns, ReadFault>
    ensures { Reads (spec.parameter_values tokens.old) result tokens.new }
{
    if !tokens.eat(Word::Hash) {
        return Ok(Conns::Ordered(Rows::new(alloc)));
    }
    connections(alloc, tokens)
}

/// An instance and its connections.
#[derive(Drop)]
pub struct InstanceRule;

impl Rule for InstanceRule {
    type Tree = Instance;

    ghost reads = { λ _. spec.instance };

    #[tactic(auto, unfolding(vlog_reading::specs::ReadItemParts::instance))]
    fn read(&self, alloc: Global, tokens: &mut Cursor<'_>) -> Result<Instance, ReadFault> {
        let name = name_place(alloc, tokens)?;
        let ports = connections(alloc, tokens)?;
        Ok(Instance { name, ports })
    }
}
