ghost use Rattle.std.specs.Prelude.{◌≡◌, ◌≤◌, ◌^◌, ℕ, length};
ghost use Rattle.std.specs.List.{slice_get};
ghost use Rattle.cvd_cursor.specs.Numerals.{below};
ghost use Rattle.cvd_targets.specs.Positions.{NamedIn};
ghost use Rattle.cvd_text.specs.Targets.{same_kind};
ghost use Rattle.design_meaning.specs.ValidProcesses.{kind_written};
ghost use Rattle.cvd_step_laws.specs.LineMarks.{with_vars};

use cov_types::{ProcessKind, Var, VarKind};
use sqlite_items::at;

/// A variable with its number.
#[derive(Clone, Copy, Debug)]
pub(crate) struct Named {
    pub(crate) var: u32,
    pub(crate) found: Var,
}

/// The variable of a number, where a process of this kind may write it.
pub(crate) fn find_named(vars: &[Var], kind: ProcessKind, var: Option<u32>) -> Option<Named>
    requires { length vars.now ≤ 2 ^ 32 }
    ensures { (v : ℕ) → var ≡ below (2 ^ 32) v → NamedIn (with_vars vars.now) kind v result }
{
    let Some(var) = var else {
        return None;
    };
    let Some(found) = variable_at(vars, var) else {
        return None;
    };
    if !may_write(kind, found.kind) {
        return None;
    }
    Some(Named { var, found })
}

fn variable_at(vars: &[Var], var: u32) -> Option<Var>
    ensures { result ≡ slice_get vars.now var }
{
    match at(vars, var as usize) {
        Some(found) => Some(*found),
        None => None,
    }
}

/// Whether a process of this kind writes variables of that kind.
fn may_write(process: ProcessKind, kind: VarKind) -> bool
    ensures { result ≡ same_kind kind (kind_written process) }
{
    match process {
        ProcessKind::Assign => is_wire(kind),
        _ => is_reg(kind),
    }
}

fn is_wire(kind: VarKind) -> bool
    ensures { result ≡ same_kind kind VarKind.Wire }
{
    match kind {
        VarKind::Wire => true,
        _ => false,
    }
}

fn is_reg(kind: VarKind) -> bool
    ensures { result ≡ same_kind kind VarKind.Reg }
{
    match kind {
        VarKind::Reg => true,
        _ => false,
    }
}
