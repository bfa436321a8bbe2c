ghost use Rattle.std.specs.Prelude.{not};
ghost use Rattle.std.specs.List.{list_all};
ghost use Rattle.scope_meaning.specs.Constants.{Wrong, is_wrong};
ghost use Rattle.elab_constants.specs.Reads.{IsFault};
ghost use Rattle.flat_source_meaning.specs.FixedParts as spec;
ghost use Rattle.flat_fixed.specs.Checks.{Checks, select_fixed, operand_is};

use crate::both::{Fixed, both};
use cov_types::NoMemory;
use elab_constants::{ConstantFault, Names, read};
use std::alloc::Global;
use vlog_tree::{Expr, Select, SystemCall};

/// What is wrong in an expression makes it no constant, but for want of memory.
fn of_fault(fault: ConstantFault) -> Fixed
    ensures { (w : Wrong) → IsFault w fault → Checks (not (is_wrong w)) result }
{
    match fault {
        ConstantFault::NoMemory => Err(NoMemory),
        ConstantFault::NotConstant => Ok(false),
        ConstantFault::BadSelect => Ok(false),
        ConstantFault::WidthPast128 => Ok(false),
    }
}

/// Whether a whole expression is a constant.
pub fn is_constant<N: Names>(alloc: Global, names: &N, of: &Expr) -> Fixed
    ensures { Checks (spec.is_constant (N.environment names.now) of.now) result }
{
    match read(alloc, names, of) {
        Ok(_) => return Ok(true),
        Err(fault) => return of_fault(fault),
    }
}

/// The operand of `$clog2` has to be a constant.
fn operand<N: Names>(alloc: Global, names: &N, call: SystemCall, of: &Expr) -> Fixed
    ensures { Checks (operand_is (N.environment names.now) call of.now) result }
{
    match call {
        SystemCall::CeilLog2 => is_constant(alloc, names, of),
        SystemCall::Signed => Ok(true),
        SystemCall::Unsigned => Ok(true),
    }
}

/// Whether each part of an expression that has to be a constant is one: the bounds of a part, the width of `+:` and `-:`,
/// the count of a replication, the operand of `$clog2`.
#[cycle(fixed)]
pub fn has_constants<N: Names>(alloc: Global, names: &N, of: &Expr) -> Fixed
    ensures { Checks (spec.has_constants (N.environment names.now) of.now) result }
{
    match of {
        Expr::Number { .. } => return Ok(true),
        Expr::Name(_) => return Ok(true),
        Expr::Select { base, select } => {
            return both(
                has_constants(alloc, names, base.get()),
                fixed_select(alloc, names, select),
            );
        }
        Expr::Unary { op: _, of } => return has_constants(alloc, names, of.get()),
        Expr::Binary { op: _, left, right } => {
            return both(
                has_constants(alloc, names, left.get()),
                has_constants(alloc, names, right.get()),
            );
        }
        Expr::Choose { test, yes, no } => {
            return both(
                both(
                    has_constants(alloc, names, test.get()),
                    has_constants(alloc, names, yes.get()),
                ),
                has_constants(alloc, names, no.get()),
            );
        }
        Expr::Join(parts) => return fixed_parts(alloc, names, parts.as_slice()),
        Expr::Repeat { count, parts } => {
            return both(
                both(
                    is_constant(alloc, names, count.get()),
                    has_constants(alloc, names, count.get()),
                ),
                fixed_parts(alloc, names, parts.as_slice()),
            );
        }
        Expr::Call { name, of } => {
            return both(
                operand(alloc, names, *name, of.get()),
                has_constants(alloc, names, of.get()),
            );
        }
    }
}

#[cycle(fixed)]
fn fixed_select<N: Names>(alloc: Global, names: &N, part: &Select) -> Fixed
    ensures { Checks (select_fixed (N.environment names.now) part.now) result }
{
    match part {
        Select::At(position) => return has_constants(alloc, names, position.get()),
        Select::Between(high, low) => {
            return both(
                both(
                    both(
                        is_constant(alloc, names, high.get()),
                        is_constant(alloc, names, low.get()),
                    ),
                    has_constants(alloc, names, high.get()),
                ),
                has_constants(alloc, names, low.get()),
            );
        }
        Select::Up(from, width) => {
            return both(
                both(
                    is_constant(alloc, names, width.get()),
                    has_constants(alloc, names, from.get()),
                ),
                has_constants(alloc, names, width.get()),
            );
        }
        Select::Down(from, width) => {
            return both(
                both(
                    is_constant(alloc, names, width.get()),
                    has_constants(alloc, names, from.get()),
                ),
                has_constants(alloc, names, width.get()),
            );
        }
    }
}

#[cycle(fixed)]
fn fixed_parts<N: Names>(alloc: Global, names: &N, parts: &[Expr]) -> Fixed
    ensures { Checks (list_all (spec.has_constants (N.environment names.now)) parts.now) result }
{
    let mut all = Ok(true);
    for part in parts {
        all = both(all, has_constants(alloc, names, part));
    }
    all
}
