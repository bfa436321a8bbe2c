ghost use Rattle.std.specs.Prelude.{◌≡◌, Bool, ℕ, [], IfOk};
ghost use Rattle.source_meaning.specs.Meaning.{Meaning};
ghost use Rattle.source_meaning.specs.Operators.{unary_of};
ghost use Rattle.source_meaning.specs.Joins.{called};
ghost use Rattle.elab_constants.specs.Sized.{IsSized, IsNumberOf, MakesSized};
ghost use Rattle.elab_constants.specs.Operators as spec;
ghost use Rattle.source_meaning.specs.Joins as joins;

use crate::fault::ConstantFault;
use crate::sized::SizedTerm;
use crate::term::Term;
use bit_values::Bits;
use sqlite_items::Boxed;
use std::alloc::Global;
use vlog_tree::{SystemCall, UnaryOp};

/// A value as a term.
pub(crate) fn number(of: Bits, signed: bool) -> SizedTerm
    ensures { IsNumberOf of.width of.bits signed result }
{
    SizedTerm {
        size: of.width,
        signed,
        term: Term::Number(of),
    }
}

/// `!` and the reductions: one bit of a value.
fn reduction(op: UnaryOp, of: Bits) -> Bits
    ensures width { result.width ≡ 1 }
    ensures value { result.bits ≡ spec.reduction op of.width of.bits }
{
    match op {
        UnaryOp::ReduceAnd => bit_values::red_and(of),
        UnaryOp::ReduceNand => bit_values::not(bit_values::red_and(of)),
        UnaryOp::ReduceOr => bit_values::red_or(of),
        UnaryOp::ReduceXor => bit_values::red_xor(of),
        UnaryOp::ReduceTildeCaret | UnaryOp::ReduceCaretTilde => {
            bit_values::not(bit_values::red_xor(of))
        }
        _ => bit_values::not(bit_values::red_or(of)),
    }
}

fn negative(alloc: Global, of: SizedTerm) -> Result<SizedTerm, ConstantFault>
    ensures { (a : Meaning) → IsSized a of → MakesSized (spec.negative a) result }
{
    let SizedTerm { size, signed, term } = of;
    let of = Boxed::new(alloc, term)?;
    Ok(SizedTerm {
        size,
        signed,
        term: Term::Negative(of),
    })
}

fn complement(alloc: Global, of: SizedTerm) -> Result<SizedTerm, ConstantFault>
    ensures { (a : Meaning) → IsSized a of → MakesSized (spec.complement a) result }
{
    let SizedTerm { size, signed, term } = of;
    let of = Boxed::new(alloc, term)?;
    Ok(SizedTerm {
        size,
        signed,
        term: Term::Complement(of),
    })
}

/// A unary operator.
pub(crate) fn unary(alloc: Global, op: UnaryOp, of: SizedTerm) -> Result<SizedTerm, ConstantFault>
    ensures { (a : Meaning) → IsSized a of → MakesSized (unary_of op a) result }
{
    match op {
        UnaryOp::Plus => Ok(of),
        UnaryOp::Minus => negative(alloc, of),
        UnaryOp::Complement => complement(alloc, of),
        _ => Ok(number(reduction(op, of.own()), false)),
    }
}

/// The least number whose power of 2 is no less than the value, and 0 for 0.
fn ceil_log2(of: u128) -> u8
    ensures { result ≡ joins.ceil_log2 of }
{
    let mut below: u8 = 0;
    for power in 0..128u8 {
        below += u8::from(1u128 << power < of);
    }
    below
}

/// `$signed`, `$unsigned` and `$clog2`.
pub(crate) fn call(name: SystemCall, of: SizedTerm) -> SizedTerm
    ensures { (a : Meaning) → IsSized a of → IsSized (called name a) result }
{
    let own = of.own();
    match name {
        SystemCall::Signed => number(own, true),
        SystemCall::Unsigned => number(own, false),
        SystemCall::CeilLog2 => number(Bits::new(32, u128::from(ceil_log2(own.bits))), true),
    }
}
