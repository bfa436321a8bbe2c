//! The ports of a module.

ghost use Rattle.std.specs.Prelude.{◌≡◌, IfOk};
ghost use Rattle.std.specs.Option.{option_copied};
ghost use Rattle.vlog_reading.specs.ReadModules as spec;
ghost use Rattle.vlog_reading.specs.Reading.{Reads};

use cov_types::{ByteText, NoMemory, Place, Rows};
use std::alloc::Global;
use vlog_cursor::{Cursor, Word};
use vlog_declarations::signed_range;
use vlog_expressions::name_token;
use vlog_reading::ReadFault;
use vlog_tokens::TokenKind;
use vlog_tree::{Port, PortKind, RangeExpr, Shared};

/// What kind of output a port is, after the word `output`.
#[tactic(auto, unfolding(vlog_reading::specs::ReadModules::output_kind))]
fn output_kind(tokens: &mut Cursor<'_>) -> Result<PortKind, ReadFault>
    ensures { Reads (spec.output_kind tokens.old) result tokens.new }
{
    if tokens.eat(Word::Reg) {
        return Ok(PortKind::OutputReg);
    }
    let _written = tokens.eat(Word::Wire);
    Ok(PortKind::OutputWire)
}

/// The direction of a port, and what an output is.
#[tactic(auto, unfolding(vlog_reading::specs::ReadModules::direction))]
fn direction(tokens: &mut Cursor<'_>) -> Result<PortKind, ReadFault>
    ensures { Reads (spec.direction tokens.old) result tokens.new }
{
    let Some(kind) = tokens.peek() else {
        return Err(ReadFault::Syntax);
    };
    match kind {
        TokenKind::Input => {
            tokens.skip();
            let _written = tokens.eat(Word::Wire);
            Ok(PortKind::Input)
        }
        TokenKind::Output => {
            tokens.skip();
            output_kind(tokens)
        }
        _ => Err(ReadFault::Syntax),
    }
}

/// The range, for the ports after it to share.
fn shareable(alloc: Global, range: Option<RangeExpr>) -> Result<Option<Shared<RangeExpr>>, NoMemory>
    ensures { IfOk result (λ r. r ≡ range) }
{
    match range {
        None => Ok(None),
        Some(range) => Ok(Some(Shared::new(alloc, range)?)),
    }
}

/// One more of this range.
fn shared_range(range: &Option<Shared<RangeExpr>>) -> Result<Option<Shared<RangeExpr>>, NoMemory>
    ensures { IfOk result (λ r. r ≡ range.now) }
{
    match range {
        None => Ok(None),
        Some(range) => Ok(Some(range.share()?)),
    }
}

/// A port with its direction.
#[tactic(auto, unfolding(vlog_reading::specs::ReadModules::declared_port))]
fn declared_port(alloc: Global, tokens: &mut Cursor<'_>, place: Place) -> Result<Port, ReadFault>
    ensures { Reads (spec.declared_port place tokens.old) result tokens.new }
{
    let kind = direction(tokens)?;
    let (signed, range) = signed_range(alloc, tokens)?;
    let range = shareable(alloc, range)?;
    let name_place = tokens.place();
    let name = name_token(alloc, tokens)?;
    Ok(Port {
        place,
        kind,
        signed,
        range,
        name_place,
        name,
    })
}

/// A port that shares all but its name with this one.
fn alike(port: &Port, place: Place, name: ByteText) -> Result<Port, NoMemory>
    ensures { IfOk result (λ made. made ≡ spec.alike port.now place name) }
{
    let range = shared_range(&port.range)?;
    Ok(Port {
        place,
        kind: port.kind,
        signed: port.signed,
        range,
        name_place: place,
        name,
    })
}

/// A name alone, which has the kind, sign and range of the port before.
#[tactic(auto, unfolding(vlog_reading::specs::ReadModules::lone_port))]
fn lone_port(
    alloc: Global,
    tokens: &mut Cursor<'_>,
    place: Place,
    before: Option<&Port>,
) -> Result<Port, ReadFault>
    ensures { Reads (spec.lone_port place (option_copied before.entry) tokens.old) result tokens.new }
{
    match before {
        None => Err(ReadFault::Syntax),
        Some(port) => {
            let name = name_token(alloc, tokens)?;
            Ok(alike(port, place, name)?)
        }
    }
}

/// A port after this one, if there is one.
#[tactic(auto, unfolding(vlog_reading::specs::ReadModules::one_port))]
fn one_port(
    alloc: Global,
    tokens: &mut Cursor<'_>,
    before: Option<&Port>,
) -> Result<Port, ReadFault>
    ensures { Reads (spec.one_port (option_copied before.entry) tokens.old) result tokens.new }
{
    let place = tokens.place();
    let Some(kind) = tokens.peek() else {
        return declared_port(alloc, tokens, place);
    };
    match kind {
        TokenKind::Name(_) => lone_port(alloc, tokens, place, before),
        _ => declared_port(alloc, tokens, place),
    }
}

/// Ports with commas between.
#[tactic(auto, unfolding(vlog_reading::specs::ReadModules::ports, vlog_reading::specs::ReadModules::ports_from))]
fn ports(alloc: Global, tokens: &mut Cursor<'_>) -> Result<Rows<Port>, ReadFault>
    ensures { Reads (spec.ports tokens.old) result tokens.new }
{
    let mut found = Rows::new(alloc);
    for _turn in 0..tokens.left() {
        let before = found.get(found.len().saturating_sub(1));
        let port = one_port(alloc, tokens, before)?;
        found.push(port)?;
        if !tokens.eat(Word::Comma) {
            return Ok(found);
        }
    }
    Err(ReadFault::Syntax)
}

/// The ports of a module; none where none are written.
#[tactic(auto, unfolding(vlog_reading::specs::ReadModules::port_list, vlog_reading::specs::ReadModules::ports_inside))]
pub fn port_list(alloc: Global, tokens: &mut Cursor<'_>) -> Result<Rows<Port>, ReadFault>
    ensures { Reads (spec.port_list tokens.old) result tokens.new }
{
    if !tokens.eat(Word::OpenParen) {
        return Ok(Rows::new(alloc));
    }
    if tokens.eat(Word::CloseParen) {
        return Ok(Rows::new(alloc));
    }
    let all = ports(alloc, tokens)?;
    tokens.expect(Word::CloseParen)?;
    Ok(all)
}
