ghost use Rattle.std.specs.Prelude.{◌≡◌, IfOk};
ghost use Rattle.flat_source_meaning.specs.Variables as spec;
ghost use Rattle.flat_variables.specs.Sizes.{span_of, named};

use crate::size::Size;
use cov_types::{ByteText, NoMemory, Place};
use elab_types::{FlatVar, VarKind};
use std::alloc::Global;
use vlog_tree::NamePlace;

/// What the variables of a declaration have in common: their scope, kind, sign and size.
#[derive(Clone, Copy, Debug)]
pub(crate) struct Shape {
    pub(crate) scope: u32,
    pub(crate) kind: VarKind,
    pub(crate) signed: bool,
    pub(crate) size: Size,
}

/// A variable that is no memory and no integer.
pub(crate) fn variable_at(
    alloc: Global,
    shape: Shape,
    place: Place,
    name: &[u8],
    start: u128,
) -> Result<FlatVar, NoMemory>
    ensures { IfOk result (λ x. x ≡ spec.variable shape.scope shape.kind shape.signed (span_of shape.size) (named place name.now) start) }
{
    let name = ByteText::from_slice(alloc, name)?;
    Ok(FlatVar {
        scope: shape.scope,
        name,
        place,
        kind: shape.kind,
        width: shape.size.width,
        low: shape.size.low,
        vector: shape.size.vector,
        signed: shape.signed,
        integer: false,
        words: 1,
        word_low: 0,
        memory: false,
        start,
    })
}

/// A variable with a declared name.
pub(crate) fn variable(
    alloc: Global,
    shape: Shape,
    name: &NamePlace,
    start: u128,
) -> Result<FlatVar, NoMemory>
    ensures { IfOk result (λ x. x ≡ spec.variable shape.scope shape.kind shape.signed (span_of shape.size) name.now start) }
{
    variable_at(alloc, shape, name.place, name.name.as_slice(), start)
}

/// An integer: 32 bits, signed.
pub(crate) fn integer_variable(
    alloc: Global,
    scope: u32,
    name: &NamePlace,
) -> Result<FlatVar, NoMemory>
    ensures { IfOk result (λ x. x ≡ spec.integer_variable scope name.now) }
{
    let size = Size {
        width: 32,
        low: 0,
        vector: true,
    };
    let shape = Shape {
        scope,
        kind: VarKind::Reg,
        signed: true,
        size,
    };
    let mut of = variable(alloc, shape, name, 0)?;
    of.integer = true;
    Ok(of)
}
