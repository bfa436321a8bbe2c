ghost use Rattle.std.specs.Prelude.{◌≡◌, [], IfOk, Err};
ghost use Rattle.source_meaning.specs.Meaning.{Meaning, holds};
ghost use Rattle.source_meaning.specs.Environment.{Environment};
ghost use Rattle.source_meaning.specs.Expressions.{meaning};
ghost use Rattle.source_meaning.specs.Assignments.{assigned};
ghost use Rattle.vlog_tree.specs.declared.expression.Expr as tree;
ghost use Rattle.scope_meaning.specs.Constants as constants;
ghost use Rattle.flat_source_meaning.specs.FixedParts.{is_constant};
ghost use Rattle.elab_constants.specs.Sized.{IsSized};
ghost use Rattle.elab_constants.specs.Reads.{Reads};
ghost use Rattle.flat_passes.specs.Says.{Says, IsTerm};

use cov_types::NoMemory;
use elab_constants::{ConstantFault, Names, SizedTerm, read};
use std::alloc::Global;
use vlog_tree::Expr;

/// What a fault says of an expression: that it is no constant.
fn no_term(fault: ConstantFault) -> Result<Option<SizedTerm>, NoMemory>
    ensures { (env : Environment) (e : tree.Expr) → Reads (constants.read env e) (Err fault) → IfOk result (IsTerm env e) }
{
    match fault {
        ConstantFault::NotConstant => Ok(None),
        ConstantFault::BadSelect => Ok(None),
        ConstantFault::WidthPast128 => Ok(None),
        ConstantFault::NoMemory => Err(NoMemory),
    }
}

/// An expression as a constant; none where it is none.
fn term_of<N: Names>(alloc: Global, names: &N, expr: &Expr) -> Result<Option<SizedTerm>, NoMemory>
    ensures { IfOk result (IsTerm (N.environment names.now) expr.now) }
{
    match read(alloc, names, expr) {
        Ok(term) => Ok(Some(term)),
        Err(fault) => no_term(fault),
    }
}

/// Whether a test holds; none where it is no constant.
pub(crate) fn holds_in<N: Names>(
    alloc: Global,
    names: &N,
    test: &Expr,
) -> Result<Option<bool>, NoMemory>
    ensures { IfOk result (Says (is_constant (N.environment names.now) test.now) (holds (meaning (N.environment names.now) test.now) [])) }
{
    match term_of(alloc, names, test)? {
        Some(term) => Ok(Some(term.holds())),
        None => Ok(None),
    }
}

/// The 32 bits that a loop variable gets from a constant.
fn number_of(term: &SizedTerm) -> u32
    ensures { (m : Meaning) → IsSized m term.now → result ≡ assigned 32 m [] }
{
    let own = term.assigned(32);
    own.bits as u32
}

/// The value that a loop variable gets from an expression; none where it is no constant.
pub(crate) fn assigned_in<N: Names>(
    alloc: Global,
    names: &N,
    expr: &Expr,
) -> Result<Option<u32>, NoMemory>
    ensures { IfOk result (Says (is_constant (N.environment names.now) expr.now) (assigned 32 (meaning (N.environment names.now) expr.now) [])) }
{
    match term_of(alloc, names, expr)? {
        Some(term) => Ok(Some(number_of(&term))),
        None => Ok(None),
    }
}
