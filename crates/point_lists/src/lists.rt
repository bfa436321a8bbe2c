ghost use Rattle.std.specs.Prelude.{◌≡◌, IfOk, Some};
ghost use Rattle.design_tree.specs.declared.design.Design.{Design};
ghost use Rattle.mark_numbers.specs.Numbers.{number_at};
ghost use Rattle.arm_rows.specs.Rows.{AreRowsOf};
ghost use Rattle.counted_copy.specs.Carried.{carried_by};
ghost use Rattle.arm_counters.specs.Counters.{IsTold};
ghost use Rattle.counted_laws.specs.DerivedTable.{HaveLists};
ghost use Rattle.point_lists.specs.Lists.{AreApart, AreTold, HasNumber, PutsLists};

use arm_rows::ArmRow;
use cov_types::{NoMemory, Rows};
use std::alloc::Global;

/// The counters that the entries of arms are told from: those that are added, and those that are taken off.
#[derive(Debug, Drop)]
pub struct PointLists {
    pub plus: Rows<u32>,
    pub minus: Rows<u32>,
}

/// The number at a place that has one.
pub fn counter_of(numbers: &[Option<u32>], place: usize) -> u32
    requires { HasNumber numbers.now place }
    ensures { number_at numbers.now place ≡ Some result }
{
    match numbers[place] {
        Some(counter) => counter,
        None => unreachable!(),
    }
}

/// Puts the counters that an arm's entries are told from behind those that are there. It goes up the chain of no arms.
fn put_lists(
    rows: &[ArmRow],
    numbers: &[Option<u32>],
    arm: usize,
    plus: &mut Rows<u32>,
    minus: &mut Rows<u32>,
) -> Result<(), NoMemory>
    requires told { IsTold rows.now numbers.now arm }
    requires apart { AreApart numbers.now }
    ensures { IfOk result (λ _. (d : Design) → AreRowsOf d rows.now
        → PutsLists (carried_by numbers.now) d arm plus.old plus.new minus.old minus.new) }
{
    match rows[arm] {
        ArmRow::No { around, yes } => {
            minus.push(counter_of(numbers, yes))?;
            put_lists(rows, numbers, around, plus, minus)
        }
        _ => plus.push(counter_of(numbers, arm)),
    }
}

/// The counters that the entries of some arms are told from, of one arm after the other.
pub fn point_lists(
    alloc: Global,
    rows: &[ArmRow],
    numbers: &[Option<u32>],
    arms: &[usize],
) -> Result<PointLists, NoMemory>
    requires told { AreTold rows.now numbers.now arms.now }
    requires apart { AreApart numbers.now }
    ensures { IfOk result (λ lists. (d : Design) → AreRowsOf d rows.now → HaveLists (carried_by numbers.now) d arms.now lists.plus lists.minus) }
{
    let mut plus = Rows::new(alloc);
    let mut minus = Rows::new(alloc);
    for arm in arms {
        put_lists(rows, numbers, *arm, &mut plus, &mut minus)?;
    }
    Ok(PointLists { plus, minus })
}
