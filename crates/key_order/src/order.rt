ghost use Rattle.std.specs.Prelude.{◌≡◌, AllPairs, IfOk};
ghost use Rattle.std.specs.List.Sorted.{IsPermutation};
ghost use Rattle.std.specs.Ordering.{nat_cmp};
ghost use Rattle.std.specs.Cmp.Lexicographic.{slice_cmp};
ghost use Rattle.design_meaning.specs.Names.{IsBefore};
ghost use Rattle.key_order.specs.Keys.{HaveOwnKeys};

use cov_types::{NoMemory, Rows};
use design_tree::PointRow;
use std::cmp::Ordering;

/// The order of two rows, by the bytes of their keys.
fn by_key(left: &PointRow, right: &PointRow) -> Ordering
    ensures { result ≡ slice_cmp nat_cmp left.now.key right.now.key }
{
    left.key.as_slice().cmp(right.key.as_slice())
}

/// The same rows, ascending by the bytes of their keys.
pub fn in_key_order(rows: Rows<PointRow>) -> Result<Rows<PointRow>, NoMemory>
    ensures moved { IfOk result (λ ordered. IsPermutation rows ordered) }
    ensures ascend { IfOk result (λ ordered. HaveOwnKeys rows → AllPairs (λ a b. IsBefore a.key b.key) ordered) }
{
    let mut ordered = rows.into_vec();
    ordered.sort_by(|left, right| by_key(left, right))?;
    Ok(Rows::from_vec(ordered))
}
