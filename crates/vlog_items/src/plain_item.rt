//! Items that hold no items, each after the word that it begins with.

ghost use Rattle.vlog_reading.specs.ReadItems as spec;
ghost use Rattle.vlog_reading.specs.Reading.{Reads};

use sqlite_items::Boxed;
use std::alloc::Global;
use vlog_cursor::{Cursor, Word, listed};
use vlog_declarations::{
    AssignRule, InstanceRule, ParamRule, RegRule, WireRule, clock, cover, param_form,
    parameter_values, signed_range,
};
use vlog_reading::ReadFault;
use vlog_statements::whole_statement;
use vlog_tree::{ItemKind, NamePlace};

/// After the word `wire`.
#[tactic(auto, unfolding(vlog_reading::specs::ReadItems::wires))]
pub fn wires(alloc: Global, tokens: &mut Cursor<'_>) -> Result<ItemKind, ReadFault>
    ensures { Reads (spec.wires tokens.old) result tokens.new }
{
    let declared = Boxed::new(alloc, signed_range(alloc, tokens)?)?;
    let names = listed(alloc, tokens, &WireRule)?;
    let (signed, range) = declared.into_inner();
    Ok(ItemKind::Wire {
        signed,
        range,
        names,
    })
}

/// After the word `reg`.
#[tactic(auto, unfolding(vlog_reading::specs::ReadItems::regs))]
pub fn regs(alloc: Global, tokens: &mut Cursor<'_>) -> Result<ItemKind, ReadFault>
    ensures { Reads (spec.regs tokens.old) result tokens.new }
{
    let declared = Boxed::new(alloc, signed_range(alloc, tokens)?)?;
    let names = listed(alloc, tokens, &RegRule)?;
    let (signed, range) = declared.into_inner();
    Ok(ItemKind::Reg {
        signed,
        range,
        names,
    })
}

/// After the word `parameter`, or where they are local `localparam`.
#[tactic(auto, unfolding(vlog_reading::specs::ReadItems::parameters))]
pub fn parameters(
    alloc: Global,
    tokens: &mut Cursor<'_>,
    local: bool,
) -> Result<ItemKind, ReadFault>
    ensures { Reads (spec.parameters local tokens.old) result tokens.new }
{
    let form = param_form(alloc, tokens)?;
    let names = listed(alloc, tokens, &ParamRule)?;
    Ok(ItemKind::Parameter { local, form, names })
}

/// After the word `assign`.
#[tactic(auto, unfolding(vlog_reading::specs::ReadItems::assignments))]
pub fn assignments(alloc: Global, tokens: &mut Cursor<'_>) -> Result<ItemKind, ReadFault>
    ensures { Reads (spec.assignments tokens.old) result tokens.new }
{
    let parts = listed(alloc, tokens, &AssignRule)?;
    Ok(ItemKind::Assign(parts))
}

/// After the word `initial`.
#[tactic(auto, unfolding(vlog_reading::specs::ReadItems::initial))]
pub fn initial(alloc: Global, tokens: &mut Cursor<'_>) -> Result<ItemKind, ReadFault>
    ensures { Reads (spec.initial tokens.old) result tokens.new }
{
    let body = whole_statement(alloc, tokens)?;
    Ok(ItemKind::Initial(body))
}

/// After the word `always`.
#[tactic(auto, unfolding(vlog_reading::specs::ReadItems::always))]
pub fn always(alloc: Global, tokens: &mut Cursor<'_>) -> Result<ItemKind, ReadFault>
    ensures { Reads (spec.always tokens.old) result tokens.new }
{
    let clock = clock(alloc, tokens)?;
    let body = whole_statement(alloc, tokens)?;
    Ok(ItemKind::Always { clock, body })
}

/// Instances of this module.
#[tactic(auto, unfolding(vlog_reading::specs::ReadItems::instances))]
fn instances(alloc: Global, tokens: &mut Cursor<'_>, of: NamePlace) -> Result<ItemKind, ReadFault>
    ensures { Reads (spec.instances of tokens.old) result tokens.new }
{
    let params = Boxed::new(alloc, parameter_values(alloc, tokens)?)?;
    let made = listed(alloc, tokens, &InstanceRule)?;
    Ok(ItemKind::Instances {
        module: of.name,
        params: params.into_inner(),
        made,
    })
}

/// After the name that an item begins with: a cover with this label, or instances of this module.
#[tactic(auto, unfolding(vlog_reading::specs::ReadItems::cover_or_instances))]
pub fn cover_or_instances(
    alloc: Global,
    tokens: &mut Cursor<'_>,
    name: NamePlace,
) -> Result<ItemKind, ReadFault>
    ensures { Reads (spec.cover_or_instances name tokens.old) result tokens.new }
{
    if tokens.eat(Word::Colon) {
        cover(alloc, tokens, Some(name))
    } else {
        instances(alloc, tokens, name)
    }
}
