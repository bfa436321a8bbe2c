ghost use Rattle.std.specs.Prelude.{◌≡◌, ◌≤◌, ◌^◌, ℕ, length};
ghost use Rattle.cvd_cursor.specs.Numerals.{below};
ghost use Rattle.cvd_cursor.specs.Reads.{Reads};
ghost use Rattle.cvd_targets.specs.Positions.{ExpressionIn, PositionIn, at_marks};
ghost use Rattle.design_tree.specs.declared.design.Design.{Design};
ghost use Rattle.design_tree.specs.declared.typed.Typed.{Typed as AnyTyped};
ghost use Rattle.cvd_step_laws.specs.LineMarks.{with_vars};

use cov_types::Var;
use cvd_cursor::{Cursor, ReadFault};
use cvd_expressions::{Expression, read_expression};
use cvd_nodes::low;
use design_tree::Index;
use std::alloc::Global;

/// A position with the number of its nodes.
#[derive(Drop)]
pub(crate) struct Position {
    pub(crate) at: Index,
    pub(crate) nodes: usize,
}

/// `LOW S E`: a position, or nothing where it may not stand.
pub(crate) fn read_position(
    alloc: Global,
    cursor: &mut Cursor<'_>,
    vars: &[Var],
) -> Result<Option<Position>, ReadFault>
    requires { length vars.now ≤ 2 ^ 32 }
    ensures { Reads at_marks (PositionIn (with_vars vars.now)) cursor.old result cursor.new }
{
    let from = low(cursor)?;
    let value = read_expression(alloc, cursor, vars)?;
    Ok(position_of(from.0, from.1, value))
}

fn position_of(low: Option<u32>, signed: bool, value: Option<Expression>) -> Option<Position>
    ensures { (d : Design) (l : ℕ) (tree : AnyTyped) → low ≡ below (2 ^ 32) l → ExpressionIn d tree value → PositionIn d ((l, signed), tree) result }
{
    let Some(low) = low else {
        return None;
    };
    let Some(value) = value else {
        return None;
    };
    let Expression {
        tree: value,
        width: _,
        nodes,
    } = value;
    let at = Index { low, signed, value };
    Some(Position { at, nodes })
}
