ghost use Rattle.std.specs.Prelude.{◌≡◌, ◌+◌, ◌<◌, ◌^◌, List, IfOk, true};
ghost use Rattle.elab_types.specs.declared.flat_source.FlatVar.{FlatVar};
ghost use Rattle.elab_types.specs.declared.flat_expression.FlatExpr.{FlatExpr};
ghost use Rattle.elab_types.specs.declared.flat_expression.FlatSelect.TheVariants as select;
ghost use Rattle.flat_meaning.specs.Expressions.{meaning};
ghost use Rattle.flat_constants.specs.Values.{GivesValue};
ghost use Rattle.lower_meaning.specs.Constants.{is_right};
ghost use Rattle.lower_nodes.specs.Reads.{Lowers};
ghost use Rattle.lower_selects.specs.Places.{Begins, BeginsAt, Places};

use crate::position::{Position, index, own_index};
use crate::range::{range_of, width_of};
use crate::width::Width;
use design_tree::Typed;
use flat_constants::{ConstantFault, FixedValue};
use lower_forms::SizedForm;
use lower_nodes::{ExpressionFault, Reading, both, kept};
use std::alloc::{AllocError, Global};

/// The highest number that the lowest bit of a variable may have.
const HIGHEST: u32 = u32::MAX - 127;

/// The place of a select, or the first reason for its having none.
pub type Placing = Result<Position, ExpressionFault>;

fn begin(alloc: Global, low: u32, width: Width, from: SizedForm) -> Result<Position, AllocError>
    ensures { IfOk result (λ p. Begins low width.bits from p) }
{
    let at = own_index(alloc, low, from)?;
    Ok(Position { width, at })
}

fn begin_at(alloc: Global, low: u32, width: Width, from: FixedValue) -> Result<Position, AllocError>
    ensures { IfOk result (λ p. BeginsAt low width.bits from p) }
{
    let number = Typed::Number {
        width: from.value.width,
        value: from.value.bits,
    };
    let at = index(alloc, low, from.signed, number)?;
    Ok(Position { width, at })
}

/// `[i]`
pub fn read_at(alloc: Global, low: u32, at: Reading) -> Placing
    ensures { (vars : List FlatVar) (i : FlatExpr) → Lowers vars i at → Places vars low (select.At i) result }
{
    match at {
        Ok(from) => {
            let one = Width { bits: 1 };
            kept(begin(alloc, low, one, from))
        }
        Err(fault) => Err(fault),
    }
}

/// `[high : low]`: the position is one number.
pub fn read_between(
    alloc: Global,
    low: u32,
    high_bound: Result<FixedValue, ConstantFault>,
    low_bound: Result<FixedValue, ConstantFault>,
) -> Placing
    ensures { (vars : List FlatVar) (h l : FlatExpr) → is_right h ≡ true → is_right l ≡ true → GivesValue (meaning vars h) high_bound
        → GivesValue (meaning vars l) low_bound → Places vars low (select.Between h l) result }
{
    let all = range_of(high_bound, low_bound);
    match all {
        Ok((width, from)) => kept(begin_at(alloc, low, width, from)),
        Err(fault) => Err(fault),
    }
}

/// `[i +: width]`: it begins at the position.
pub fn read_up(
    alloc: Global,
    low: u32,
    from: Reading,
    count: Result<FixedValue, ConstantFault>,
) -> Placing
    ensures { (vars : List FlatVar) (i n : FlatExpr) → is_right n ≡ true → Lowers vars i from → GivesValue (meaning vars n) count
        → Places vars low (select.Up i n) result }
{
    let width = width_of(count);
    let all = both(from, width);
    match all {
        Ok((from, width)) => kept(begin(alloc, low, width, from)),
        Err(fault) => Err(fault),
    }
}

/// `[i -: width]`: it ends at the position.
pub fn read_down(
    alloc: Global,
    low: u32,
    from: Reading,
    count: Result<FixedValue, ConstantFault>,
) -> Placing
    ensures { (vars : List FlatVar) (i n : FlatExpr) → low + 127 < 2 ^ 32 → is_right n ≡ true → Lowers vars i from
        → GivesValue (meaning vars n) count → Places vars low (select.Down i n) result }
{
    if low > HIGHEST {
        return Err(ExpressionFault::BadSelect);
    }
    let width = width_of(count);
    let all = both(from, width);
    match all {
        Ok((from, width)) => {
            let lowest = low + u32::from(width.bits - 1);
            kept(begin(alloc, lowest, width, from))
        }
        Err(fault) => Err(fault),
    }
}
