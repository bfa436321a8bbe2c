ghost use Rattle.std.specs.Prelude.{◌≡◌, List, true};
ghost use Rattle.elab_types.specs.declared.flat_source.FlatVar.{FlatVar};
ghost use Rattle.flat_meaning.specs.Expressions.{meaning};
ghost use Rattle.lower_meaning.specs.Constants.{is_right};
ghost use Rattle.source_meaning.specs.Meaning.{Meaning};
ghost use Rattle.elab_constants.specs.Sized.{IsSized};
ghost use Rattle.flat_constants.specs.Values.{IsValue, GivesValue, GivesTerm, IsRightAs};

use crate::copy::copy;
use crate::nameless::Nameless;
use bit_values::Bits;
use elab_constants::{ConstantFault, SizedTerm, read};
use elab_types::FlatExpr;
use std::alloc::Global;
use vlog_tree::Expr;

/// The value of a constant by itself, and how it is read.
#[derive(Clone, Copy)]
pub struct FixedValue {
    pub value: Bits,
    pub signed: bool,
}

fn valued(term: &SizedTerm) -> FixedValue
    ensures { (m : Meaning) → IsSized m term.now → IsValue m result }
{
    FixedValue {
        value: term.own(),
        signed: term.signed,
    }
}

/// What reading a copy gave, as a value.
fn of_reading(read: Result<SizedTerm, ConstantFault>) -> Result<FixedValue, ConstantFault>
    ensures { (m : Meaning) → GivesTerm m read → GivesValue m result }
{
    match read {
        Ok(term) => Ok(valued(&term)),
        Err(fault) => Err(fault),
    }
}

/// The value of the copy of an expression.
fn of_copy(alloc: Global, source: &Expr) -> Result<FixedValue, ConstantFault>
    ensures { (m : Meaning) → IsRightAs source.now m → GivesValue m result }
{
    of_reading(read(alloc, &Nameless, source))
}

/// The value of an expression that has to be a constant. Where it is one, nothing but want of memory hinders it.
pub fn fixed_value(alloc: Global, expr: &FlatExpr) -> Result<FixedValue, ConstantFault>
    ensures { (vars : List FlatVar) → is_right expr.now ≡ true → GivesValue (meaning vars expr.now) result }
{
    match copy(alloc, expr) {
        Ok(source) => of_copy(alloc, &source),
        Err(_) => Err(ConstantFault::NoMemory),
    }
}
