ghost use Rattle.std.specs.Prelude.{◌≡◌, [], max, false, ◌&&◌, ◌||◌};
ghost use Rattle.bit_values.specs.Values as value;
ghost use Rattle.source_meaning.specs.Meaning.{Meaning};
ghost use Rattle.source_meaning.specs.Operators.{in_context, shifted, compared, of_tests, binary_of, chosen, below, at_most};
ghost use Rattle.elab_constants.specs.Sized.{IsSized, IsNumberOf, MakesSized};
ghost use Rattle.elab_constants.specs.Terms.{arithmetic_value, shift_value};
ghost use Rattle.elab_constants.specs.Operators as spec;

use crate::fault::ConstantFault;
use crate::sized::SizedTerm;
use crate::term::{Arithmetic, Shift, Term};
use crate::unary::number;
use bit_values::Bits;
use sqlite_items::Boxed;
use std::alloc::Global;
use vlog_tree::BinaryOp;

/// A comparison of two values.
#[derive(Clone, Copy, Debug)]
pub(crate) enum Comparison {
    Equal,
    NotEqual,
    Below,
    AtMost,
    Above,
    AtLeast,
}

/// How a binary operator sizes its operands, and which it is.
#[derive(Clone, Copy, Debug)]
pub(crate) enum BinaryKind {
    InContext(Arithmetic),
    Shifted(Shift),
    Compared(Comparison),
    Both,
    Either,
}

fn kind_of(op: BinaryOp) -> BinaryKind
    ensures { result ≡ spec.kind_of op }
{
    match op {
        BinaryOp::Add => BinaryKind::InContext(Arithmetic::Add),
        BinaryOp::Subtract => BinaryKind::InContext(Arithmetic::Subtract),
        BinaryOp::Multiply => BinaryKind::InContext(Arithmetic::Multiply),
        BinaryOp::Divide => BinaryKind::InContext(Arithmetic::Divide),
        BinaryOp::Remainder => BinaryKind::InContext(Arithmetic::Remainder),
        BinaryOp::And => BinaryKind::InContext(Arithmetic::And),
        BinaryOp::Or => BinaryKind::InContext(Arithmetic::Or),
        BinaryOp::Xor => BinaryKind::InContext(Arithmetic::Xor),
        BinaryOp::TildeCaret | BinaryOp::CaretTilde => BinaryKind::InContext(Arithmetic::Xnor),
        BinaryOp::ShiftLeft | BinaryOp::ArithmeticShiftLeft => BinaryKind::Shifted(Shift::Left),
        BinaryOp::ShiftRight => BinaryKind::Shifted(Shift::Right),
        BinaryOp::ArithmeticShiftRight => BinaryKind::Shifted(Shift::Arithmetic),
        BinaryOp::Equal | BinaryOp::CaseEqual => BinaryKind::Compared(Comparison::Equal),
        BinaryOp::NotEqual | BinaryOp::CaseNotEqual => BinaryKind::Compared(Comparison::NotEqual),
        BinaryOp::Less => BinaryKind::Compared(Comparison::Below),
        BinaryOp::LessOrEqual => BinaryKind::Compared(Comparison::AtMost),
        BinaryOp::Greater => BinaryKind::Compared(Comparison::Above),
        BinaryOp::GreaterOrEqual => BinaryKind::Compared(Comparison::AtLeast),
        BinaryOp::LogicalAnd => BinaryKind::Both,
        BinaryOp::LogicalOr => BinaryKind::Either,
    }
}

fn greater(one: u8, other: u8) -> u8
    ensures { result ≡ max one other }
{
    if one < other { other } else { one }
}

fn in_context(
    alloc: Global,
    op: Arithmetic,
    left: SizedTerm,
    right: SizedTerm,
) -> Result<SizedTerm, ConstantFault>
    ensures { (a b : Meaning) → IsSized a left → IsSized b right → MakesSized (in_context (arithmetic_value op) a b) result }
{
    let size = greater(left.size, right.size);
    let signed = left.signed && right.signed;
    let SizedTerm {
        term: left,
        size: _,
        signed: _,
    } = left;
    let SizedTerm {
        term: right,
        size: _,
        signed: _,
    } = right;
    let left = Boxed::new(alloc, left)?;
    let right = Boxed::new(alloc, right)?;
    Ok(SizedTerm {
        size,
        signed,
        term: Term::Arithmetic { op, left, right },
    })
}

fn shift(alloc: Global, op: Shift, of: SizedTerm, by: SizedTerm) -> Result<SizedTerm, ConstantFault>
    ensures { (a b : Meaning) → IsSized a of → IsSized b by → MakesSized (shifted (shift_value op) a b) result }
{
    let by = by.own();
    let SizedTerm { size, signed, term } = of;
    let of = Boxed::new(alloc, term)?;
    Ok(SizedTerm {
        size,
        signed,
        term: Term::Shift { op, of, by },
    })
}

/// Whether the first is below the second, by sign or not.
fn is_below(by_sign: bool, left: Bits, right: Bits) -> Bits
    requires { left.width ≡ right.width }
    ensures width { result.width ≡ 1 }
    ensures value { result.bits ≡ below left.width by_sign left.bits right.bits }
{
    if by_sign {
        return bit_values::slt(left, right);
    }
    bit_values::ult(left, right)
}

fn is_at_most(by_sign: bool, left: Bits, right: Bits) -> Bits
    requires { left.width ≡ right.width }
    ensures width { result.width ≡ 1 }
    ensures value { result.bits ≡ at_most left.width by_sign left.bits right.bits }
{
    if by_sign {
        return bit_values::sle(left, right);
    }
    bit_values::ule(left, right)
}

fn comparison_bit(op: Comparison, by_sign: bool, left: Bits, right: Bits) -> Bits
    requires { left.width ≡ right.width }
    ensures width { result.width ≡ 1 }
    ensures value { result.bits ≡ spec.comparison op left.width by_sign left.bits right.bits }
{
    match op {
        Comparison::Equal => bit_values::equal(left, right),
        Comparison::NotEqual => bit_values::not(bit_values::equal(left, right)),
        Comparison::Below => is_below(by_sign, left, right),
        Comparison::AtMost => is_at_most(by_sign, left, right),
        Comparison::Above => is_below(by_sign, right, left),
        Comparison::AtLeast => is_at_most(by_sign, right, left),
    }
}

/// A comparison: the operands have their greater size, and are signed where both are.
fn compare(op: Comparison, left: SizedTerm, right: SizedTerm) -> SizedTerm
    ensures { (a b : Meaning) → IsSized a left → IsSized b right → IsSized (compared (spec.comparison op) a b) result }
{
    let size = greater(left.size, right.size);
    let by_sign = left.signed && right.signed;
    let bit = comparison_bit(op, by_sign, left.at(size, by_sign), right.at(size, by_sign));
    number(bit, false)
}

fn bit(holds: bool) -> SizedTerm
    ensures { IsNumberOf 1 (value.flag holds) false result }
{
    number(Bits::new(1, u128::from(holds)), false)
}

fn test_both(left: SizedTerm, right: SizedTerm) -> SizedTerm
    ensures { (a b : Meaning) → IsSized a left → IsSized b right → IsSized (of_tests (λ p q. p && q) a b) result }
{
    bit(left.holds() && right.holds())
}

fn test_either(left: SizedTerm, right: SizedTerm) -> SizedTerm
    ensures { (a b : Meaning) → IsSized a left → IsSized b right → IsSized (of_tests (λ p q. p || q) a b) result }
{
    bit(left.holds() || right.holds())
}

fn of_kind(
    alloc: Global,
    kind: BinaryKind,
    left: SizedTerm,
    right: SizedTerm,
) -> Result<SizedTerm, ConstantFault>
    ensures { (a b : Meaning) → IsSized a left → IsSized b right → MakesSized (spec.of_kind kind a b) result }
{
    match kind {
        BinaryKind::InContext(op) => in_context(alloc, op, left, right),
        BinaryKind::Shifted(op) => shift(alloc, op, left, right),
        BinaryKind::Compared(op) => Ok(compare(op, left, right)),
        BinaryKind::Both => Ok(test_both(left, right)),
        BinaryKind::Either => Ok(test_either(left, right)),
    }
}

/// A binary operator.
pub(crate) fn binary(
    alloc: Global,
    op: BinaryOp,
    left: SizedTerm,
    right: SizedTerm,
) -> Result<SizedTerm, ConstantFault>
    ensures { (a b : Meaning) → IsSized a left → IsSized b right → MakesSized (binary_of op a b) result }
{
    of_kind(alloc, kind_of(op), left, right)
}

/// `test ? yes : no`: the arms take the context.
pub(crate) fn choose(test: SizedTerm, yes: SizedTerm, no: SizedTerm) -> SizedTerm
    ensures { (t a b : Meaning) → IsSized t test → IsSized a yes → IsSized b no → IsSized (chosen t a b) result }
{
    let size = greater(yes.size, no.size);
    let signed = yes.signed && no.signed;
    let term = if test.holds() {
        let SizedTerm {
            term,
            size: _,
            signed: _,
        } = yes;
        term
    } else {
        let SizedTerm {
            term,
            size: _,
            signed: _,
        } = no;
        term
    };
    SizedTerm { size, signed, term }
}
