ghost use Rattle.std.specs.Prelude.{◌≡◌, ◌≤◌, ◌<◌, ◌^◌, ◌==◌, length};
ghost use Rattle.cov_types.specs.declared.kind.ProcessKind.{ProcessKind as AnyKind};
ghost use Rattle.cvd_cursor.specs.Reads.{Reads};
ghost use Rattle.cvd_targets.specs.Positions.{ExpressionIn};
ghost use Rattle.cvd_targets.specs.TargetParts.{AssignedIn, Assigning, TargetsIn, assigned_by, assignment_marks};
ghost use Rattle.design_tree.specs.declared.design.Design.{Design};
ghost use Rattle.cvd_step_laws.specs.LineMarks.{with_vars};

use crate::targets::{Targets, read_targets};
use cov_types::{ProcessKind, Rows, Var};
use cvd_cursor::{Cursor, ReadFault};
use cvd_expressions::{Expression, read_expression};
use design_tree::{Target, Typed};
use sqlite_items::Boxed;
use std::alloc::Global;

/// The greatest number of nodes of the expressions of a design.
const MOST: usize = 4_194_304;

/// What a step assigns: the targets, the highest part first, and the value, with the number of all their nodes.
#[derive(Drop)]
pub struct Assigned {
    pub targets: Rows<Target>,
    pub value: Boxed<Typed>,
    pub nodes: usize,
}

/// How many targets there are, they, and the value; or nothing, where a process of this kind may not assign so.
pub fn read_assigned(
    alloc: Global,
    cursor: &mut Cursor<'_>,
    vars: &[Var],
    kind: ProcessKind,
) -> Result<Option<Assigned>, ReadFault>
    requires { length vars.now ≤ 2 ^ 32 }
    ensures { Reads assignment_marks (λ p held. AssignedIn (with_vars vars.now) kind (assigned_by p) held) cursor.old result cursor.new }
{
    let targets = read_targets(alloc, cursor, vars, kind)?;
    let value = read_expression(alloc, cursor, vars)?;
    Ok(assigned_of(targets, value))
}

fn assigned_of(targets: Option<Targets>, value: Option<Expression>) -> Option<Assigned>
    ensures { (d : Design) (k : AnyKind) (p : Assigning) → TargetsIn d k p.0 targets → ExpressionIn d p.1 value → AssignedIn d k p result }
{
    let Some(value) = value else {
        return None;
    };
    let width = wide(value.width);
    let Some(targets) = targets else {
        return None;
    };
    if !is_width(targets.width, width) {
        return None;
    }
    let nodes = targets.nodes.saturating_add(value.nodes);
    if nodes > MOST {
        return None;
    }
    let Targets {
        items,
        width: _,
        nodes: _,
    } = targets;
    let Expression {
        tree,
        width: _,
        nodes: _,
    } = value;
    Some(Assigned {
        targets: items,
        value: tree,
        nodes,
    })
}

fn wide(width: u8) -> u16
    ensures value { result ≡ width }
    ensures small { result < 256 }
{
    width as u16
}

fn is_width(named: u8, width: u16) -> bool
    ensures { result ≡ (named == width) }
{
    named as u16 == width
}
