ghost use Rattle.std.specs.Prelude.{◌≡◌, ◌<◌, ◌++◌, ℕ, [], ◌∷◌, None, Some, IfOk, OnOk, if◌then◌else◌, length, slice_index_or};
ghost use Rattle.row_lists.specs.Lists.{list_at};
ghost use Rattle.counted_circuit.specs.Counts.{is_number};
ghost use Rattle.point_lists.specs.Arms.{arms_of, IsBelow};

use cov_types::{NoMemory, Rows};
use row_lists::RowLists;
use std::alloc::Global;

/// So many lists with nothing in them.
fn empty_lists(alloc: Global, count: usize) -> Result<RowLists<usize>, NoMemory>
    ensures many { IfOk result (λ lists. length lists ≡ count) }
    ensures empty { IfOk result (λ lists. (k : ℕ) → list_at lists k ≡ []) }
{
    let mut lists = RowLists::new(alloc);
    for _number in 0..count {
        lists.push(Rows::new(alloc))?;
    }
    Ok(lists)
}

/// Puts an arm into the list of its point, if it has one.
fn put_arm(lists: &mut RowLists<usize>, arm: usize, point: Option<u32>) -> Result<(), NoMemory>
    requires { IsBelow (length lists.old) point }
    ensures arms { OnOk result ((k : ℕ) → list_at lists.new k ≡ list_at lists.old k ++ (if is_number k point then arm ∷ [] else [])) }
    ensures same { length lists.new ≡ length lists.old }
{
    match point {
        Some(number) => lists.put(number as usize, arm),
        None => Ok(()),
    }
}

/// The arms of each point, in the order of their numbers. `points` has for each arm the number of its point, or none.
pub fn point_arms(
    alloc: Global,
    points: &[Option<u32>],
    count: usize,
) -> Result<RowLists<usize>, NoMemory>
    requires { (arm : ℕ) → IsBelow count (slice_index_or points.now arm None) }
    ensures { IfOk result (λ lists. (k : ℕ) → list_at lists k ≡ arms_of points.now k) }
{
    let mut lists = empty_lists(alloc, count)?;
    for arm in 0..points.len() {
        put_arm(&mut lists, arm, points[arm])?;
    }
    Ok(lists)
}
