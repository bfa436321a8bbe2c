//! Modules.

ghost use Rattle.vlog_reading.specs.ReadModules as spec;
ghost use Rattle.vlog_reading.specs.Reading.{Reads};

use cov_types::Rows;
use std::alloc::Global;
use vlog_cursor::{Cursor, Word};
use vlog_expressions::name_token;
use vlog_headers::{header, port_list};
use vlog_items::whole_items;
use vlog_reading::ReadFault;
use vlog_tree::Module;

/// A module, from its word `module` on.
#[tactic(auto, unfolding(vlog_reading::specs::ReadModules::one_module))]
fn one_module(alloc: Global, tokens: &mut Cursor<'_>) -> Result<Module, ReadFault>
    ensures { Reads (spec.one_module tokens.old) result tokens.new }
{
    let place = tokens.place();
    tokens.expect(Word::Module)?;
    let name = name_token(alloc, tokens)?;
    let params = header(alloc, tokens)?;
    let ports = port_list(alloc, tokens)?;
    tokens.expect(Word::Semicolon)?;
    let items = whole_items(alloc, tokens, Word::EndModule)?;
    let last = tokens.place();
    tokens.expect(Word::EndModule)?;
    Ok(Module {
        place,
        last,
        name,
        params,
        ports,
        items,
    })
}

/// All modules up to the end of the tokens.
#[tactic(auto, unfolding(vlog_reading::specs::ReadModules::modules, vlog_reading::specs::ReadModules::modules_from))]
pub fn modules(alloc: Global, tokens: &mut Cursor<'_>) -> Result<Rows<Module>, ReadFault>
    ensures { Reads (spec.modules tokens.old) result tokens.new }
{
    let mut found = Rows::new(alloc);
    for _turn in 0..tokens.left() + 1 {
        if tokens.peek().is_none() {
            return Ok(found);
        }
        found.push(one_module(alloc, tokens)?)?;
    }
    Err(ReadFault::Syntax)
}
