ghost use Rattle.std.specs.Prelude.{◌≡◌, ◌+◌, map, IfOk};
ghost use Rattle.circuit_run.specs.Lists.{total};
ghost use Rattle.scope_meaning.specs.Declared as spec;

use crate::sum::sum;
use cov_types::NoMemory;
use vlog_tree::{Item, ItemKind};

/// How many generate constructs of its own scope an item is. A `generate` region is none by itself.
#[cycle(construct_count)]
pub fn constructs(item: &Item) -> Result<u32, NoMemory>
    ensures { IfOk result (λ n. n ≡ spec.constructs item.now) }
{
    match &item.what {
        ItemKind::Generate(items) => return constructs_in(items.as_slice()),
        ItemKind::Loop { .. } => return Ok(1),
        ItemKind::Choose { .. } => return Ok(1),
        _ => return Ok(0),
    }
}

#[cycle(construct_count)]
fn constructs_in(items: &[Item]) -> Result<u32, NoMemory>
    ensures { IfOk result (λ n. n ≡ total (map spec.constructs items.now)) }
{
    let mut all = 0;
    for item in items {
        all = sum(all, constructs(item)?)?;
    }
    Ok(all)
}
