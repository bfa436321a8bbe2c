ghost use Rattle.std.specs.Prelude.{◌≡◌, IfOk};
ghost use Rattle.design_tree.specs.declared.typed.Typed.TheVariants as t;
ghost use Rattle.typed_form.specs.Nodes.{widened};
ghost use Rattle.lower_forms.specs.Forms.{settled};

use crate::form::Form;
use crate::operator::{binary, unary};
use design_tree::Typed;
use sqlite_items::Boxed;
use std::alloc::{AllocError, Global};

/// One extension round what is valued by itself where its context has more bits.
fn widen(alloc: Global, own: u8, typed: Typed, size: u8, by_sign: bool) -> Result<Typed, AllocError>
    ensures { IfOk result (λ a. a ≡ widened own size by_sign typed) }
{
    if own >= size {
        return Ok(typed);
    }
    let of = Boxed::new(alloc, typed)?;
    if by_sign {
        return Ok(Typed::SignExtend { width: size, of });
    }
    Ok(Typed::ZeroExtend { width: size, of })
}

fn choose(alloc: Global, test: Typed, yes: Typed, no: Typed) -> Result<Typed, AllocError>
    ensures { IfOk result (λ a. a ≡ t.Choose test yes no) }
{
    let test = Boxed::new(alloc, test)?;
    let yes = Boxed::new(alloc, yes)?;
    let no = Boxed::new(alloc, no)?;
    Ok(Typed::Choose { test, yes, no })
}

/// The typed form in a context.
pub(crate) fn settle(
    alloc: Global,
    form: Form,
    size: u8,
    by_sign: bool,
) -> Result<Typed, AllocError>
    ensures { IfOk result (λ a. a ≡ settled size by_sign form) }
{
    match form {
        Form::Alone { size: own, typed } => return widen(alloc, own, typed, size, by_sign),
        Form::Unary { op, of } => {
            let of = settle(alloc, of.into_inner(), size, by_sign)?;
            return unary(alloc, op, of);
        }
        Form::Binary { op, left, right } => {
            let left = settle(alloc, left.into_inner(), size, by_sign)?;
            let right = settle(alloc, right.into_inner(), size, by_sign)?;
            return binary(alloc, op, by_sign, left, right);
        }
        Form::Shift { op, of, by } => {
            let of = settle(alloc, of.into_inner(), size, by_sign)?;
            return binary(alloc, op, by_sign, of, by);
        }
        Form::Choose { test, yes, no } => {
            let yes = settle(alloc, yes.into_inner(), size, by_sign)?;
            let no = settle(alloc, no.into_inner(), size, by_sign)?;
            return choose(alloc, test, yes, no);
        }
    }
}
