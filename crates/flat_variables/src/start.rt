ghost use Rattle.std.specs.Prelude.{◌≡◌, ◌≤◌, ℕ, IfOk, Some, Err};
ghost use Rattle.vlog_tree.specs.declared.expression.Expr.{Expr as Expression};
ghost use Rattle.scope_meaning.specs.Constants as constants;
ghost use Rattle.elab_constants.specs.Reads.{IsFault};
ghost use Rattle.flat_source_meaning.specs.Variables.{start_of};

use cov_types::NoMemory;
use elab_constants::{ConstantFault, Names, read};
use std::alloc::Global;
use vlog_tree::Expr;

/// What a reg holds at first where its start has no value.
fn of_fault(fault: ConstantFault) -> Result<u128, NoMemory>
    ensures { (known : constants.Names) (of : Expression) (width : ℕ) → IsFault (constants.read (constants.constants known) of).wrong fault
        → IfOk result (λ start. start ≡ start_of known width (Some of)) }
{
    match fault {
        ConstantFault::NoMemory => Err(NoMemory),
        ConstantFault::NotConstant => Ok(0),
        ConstantFault::BadSelect => Ok(0),
        ConstantFault::WidthPast128 => Ok(0),
    }
}

/// The value of a start, sized as an assignment to so many bits.
fn value_of<N: Names>(alloc: Global, names: &N, width: u8, start: &Expr) -> Result<u128, NoMemory>
    requires at_least { 1 ≤ width }
    requires at_most { width ≤ 128 }
    ensures { (known : constants.Names) → N.environment names.now ≡ constants.constants known
        → IfOk result (λ value. value ≡ start_of known width (Some start.now)) }
{
    match read(alloc, names, start) {
        Ok(term) => Ok(term.assigned(width).bits),
        Err(fault) => of_fault(fault),
    }
}

/// What a reg of so many bits holds at first; 0 where no start is declared.
pub(crate) fn declared_start<N: Names>(
    alloc: Global,
    names: &N,
    width: u8,
    start: &Option<Expr>,
) -> Result<u128, NoMemory>
    requires at_least { 1 ≤ width }
    requires at_most { width ≤ 128 }
    ensures { (known : constants.Names) → N.environment names.now ≡ constants.constants known
        → IfOk result (λ value. value ≡ start_of known width start.now) }
{
    match start {
        Some(start) => value_of(alloc, names, width, start),
        None => Ok(0),
    }
}
