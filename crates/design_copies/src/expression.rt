ghost use Rattle.std.specs.Prelude.{◌≡◌, IfOk};

use cov_types::NoMemory;
use design_tree::{Index, Typed};
use sqlite_items::Boxed;
use std::alloc::Global;

/// A copy of an expression. It goes as deep as the expression.
#[cycle(copy)]
pub fn copy_expression(alloc: Global, expression: &Typed) -> Result<Typed, NoMemory>
    ensures { IfOk result (λ copy. copy ≡ expression.now) }
{
    match expression {
        Typed::Number { width, value } => Ok(Typed::Number {
            width: *width,
            value: *value,
        }),
        Typed::Var { var } => Ok(Typed::Var { var: *var }),
        Typed::Word { var, at } => {
            let at = copy_index(alloc, at)?;
            Ok(Typed::Word { var: *var, at })
        }
        Typed::Part { width, of, at } => {
            let of = Boxed::new(alloc, copy_expression(alloc, of.get())?)?;
            let at = copy_index(alloc, at)?;
            Ok(Typed::Part {
                width: *width,
                of,
                at,
            })
        }
        Typed::ZeroExtend { width, of } => {
            let of = Boxed::new(alloc, copy_expression(alloc, of.get())?)?;
            Ok(Typed::ZeroExtend { width: *width, of })
        }
        Typed::SignExtend { width, of } => {
            let of = Boxed::new(alloc, copy_expression(alloc, of.get())?)?;
            Ok(Typed::SignExtend { width: *width, of })
        }
        Typed::Truncate { width, of } => {
            let of = Boxed::new(alloc, copy_expression(alloc, of.get())?)?;
            Ok(Typed::Truncate { width: *width, of })
        }
        Typed::Unary { op, of } => {
            let of = Boxed::new(alloc, copy_expression(alloc, of.get())?)?;
            Ok(Typed::Unary { op: *op, of })
        }
        Typed::Binary { op, left, right } => {
            let left = Boxed::new(alloc, copy_expression(alloc, left.get())?)?;
            let right = Boxed::new(alloc, copy_expression(alloc, right.get())?)?;
            Ok(Typed::Binary {
                op: *op,
                left,
                right,
            })
        }
        Typed::Join { high, low } => {
            let high = Boxed::new(alloc, copy_expression(alloc, high.get())?)?;
            let low = Boxed::new(alloc, copy_expression(alloc, low.get())?)?;
            Ok(Typed::Join { high, low })
        }
        Typed::Repeat { count, of } => {
            let of = Boxed::new(alloc, copy_expression(alloc, of.get())?)?;
            Ok(Typed::Repeat { count: *count, of })
        }
        Typed::Choose { test, yes, no } => {
            let test = Boxed::new(alloc, copy_expression(alloc, test.get())?)?;
            let yes = Boxed::new(alloc, copy_expression(alloc, yes.get())?)?;
            let no = Boxed::new(alloc, copy_expression(alloc, no.get())?)?;
            Ok(Typed::Choose { test, yes, no })
        }
    }
}

/// A copy of a position.
#[cycle(copy)]
pub(crate) fn copy_index(alloc: Global, index: &Index) -> Result<Index, NoMemory>
    ensures { IfOk result (λ copy. copy ≡ index.now) }
{
    let value = Boxed::new(alloc, copy_expression(alloc, index.value.get())?)?;
    Ok(Index {
        low: index.low,
        signed: index.signed,
        value,
    })
}
