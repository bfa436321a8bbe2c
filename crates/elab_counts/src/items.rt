ghost use Rattle.std.specs.Prelude.{◌≡◌, ◌+◌, map, IfOk};
ghost use Rattle.circuit_run.specs.Lists.{total};
ghost use Rattle.vlog_tree.specs.declared.item.GenArm.{out-GenArm};
ghost use Rattle.scope_meaning.specs.Declared as spec;

use crate::sum::sum;
use cov_types::NoMemory;
use vlog_tree::{GenArm, GenBody, Item, ItemKind};

/// How many items an item is, itself and those inside it.
#[cycle(item_count)]
pub fn count(item: &Item) -> Result<u32, NoMemory>
    ensures { IfOk result (λ n. n ≡ spec.count item.now) }
{
    match &item.what {
        ItemKind::Generate(items) => return count_items(1, items.as_slice()),
        ItemKind::Loop { body, .. } => return count_items(1, body.as_slice()),
        ItemKind::Choose { arms, last } => {
            let arms = count_arms(arms.as_slice())?;
            match last {
                Some(body) => {
                    let last = count_body(body)?;
                    return sum(arms, last);
                }
                None => return Ok(arms),
            }
        }
        _ => return Ok(1),
    }
}

#[cycle(item_count)]
fn count_items(before: u32, items: &[Item]) -> Result<u32, NoMemory>
    ensures { IfOk result (λ n. n ≡ before + total (map spec.count items.now)) }
{
    let mut all = before;
    for item in items {
        all = sum(all, count(item)?)?;
    }
    Ok(all)
}

/// How many items the body of an arm of a generate `if` has, those inside them among them.
#[cycle(item_count)]
pub fn count_body(body: &GenBody) -> Result<u32, NoMemory>
    ensures { IfOk result (λ n. n ≡ spec.count_body body.now) }
{
    return count_items(0, body.items.as_slice());
}

/// The items of arms, and the generate `if` itself.
#[cycle(item_count)]
fn count_arms(arms: &[GenArm]) -> Result<u32, NoMemory>
    ensures { IfOk result (λ n. n ≡ 1 + total (map (λ a. spec.count_body (out-GenArm a).body) arms.now)) }
{
    let mut all = 1;
    for arm in arms {
        all = sum(all, count_body(&arm.body)?)?;
    }
    Ok(all)
}
