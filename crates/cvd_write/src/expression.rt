ghost use Rattle.std.specs.Prelude.{◌≡◌, [], ◌∷◌, ◌++◌, codes, OnOk};
ghost use Rattle.cvd_text.specs.Expressions.{position_tokens, sign_word, tokens_of};
ghost use Rattle.cvd_text.specs.Tokens.{hex, number, word};
ghost use Rattle.cvd_write.specs.Writing.{spaced};

use crate::word::{binary_word, sign_word, unary_word};
use crate::writer::Writer;
use design_tree::{Index, Typed};
use std::alloc::AllocError;

/// An expression, with a blank before each token.
#[cycle(expression)]
pub(crate) fn expression(out: &mut Writer, e: &Typed) -> Result<(), AllocError>
    ensures { OnOk result (out.new ≡ out.old ++ spaced (tokens_of e.now)) }
{
    match e {
        Typed::Number { width, value } => constant(out, *width, *value),
        Typed::Var { var } => headed(out, b"v", *var as u64),
        Typed::Word { var, at } => {
            headed(out, b"m", *var as u64)?;
            position(out, at)
        }
        Typed::Part { width, of, at } => {
            headed(out, b"p", *width as u64)?;
            lowest(out, at.low, at.signed)?;
            expression(out, of.get())?;
            expression(out, at.value.get())
        }
        Typed::ZeroExtend { width, of } => numbered(out, b"z", *width, of.get()),
        Typed::SignExtend { width, of } => numbered(out, b"x", *width, of.get()),
        Typed::Truncate { width, of } => numbered(out, b"t", *width, of.get()),
        Typed::Unary { op, of } => operated(out, unary_word(*op), of.get()),
        Typed::Binary { op, left, right } => {
            operated(out, binary_word(*op), left.get())?;
            expression(out, right.get())
        }
        Typed::Join { high, low } => {
            operated(out, b"cat", high.get())?;
            expression(out, low.get())
        }
        Typed::Repeat { count, of } => numbered(out, b"rep", *count, of.get()),
        Typed::Choose { test, yes, no } => {
            operated(out, b"sel", test.get())?;
            expression(out, yes.get())?;
            expression(out, no.get())
        }
    }
}

/// An operator's word, and an operand.
#[cycle(expression)]
fn operated(out: &mut Writer, name: &[u8], of: &Typed) -> Result<(), AllocError>
    ensures { OnOk result (out.new ≡ out.old ++ spaced (word name.now ∷ tokens_of of.now)) }
{
    out.word(name)?;
    expression(out, of)
}

/// A word, a number, and an operand.
#[cycle(expression)]
fn numbered(out: &mut Writer, name: &[u8], value: u8, of: &Typed) -> Result<(), AllocError>
    ensures { OnOk result (out.new ≡ out.old ++ spaced (word name.now ∷ number value ∷ tokens_of of.now)) }
{
    headed(out, name, value as u64)?;
    expression(out, of)
}

/// A position: what is taken off, how the value is read, and the value.
#[cycle(expression)]
pub(crate) fn position(out: &mut Writer, at: &Index) -> Result<(), AllocError>
    ensures { OnOk result (out.new ≡ out.old ++ spaced (position_tokens at.now)) }
{
    lowest(out, at.low, at.signed)?;
    expression(out, at.value.get())
}

/// A number of a width.
fn constant(out: &mut Writer, width: u8, value: u128) -> Result<(), AllocError>
    ensures { OnOk result (out.new ≡ out.old ++ spaced (word (codes "k") ∷ number width ∷ hex value ∷ [])) }
{
    headed(out, b"k", width as u64)?;
    out.hex(value)
}

/// A word and a number.
pub(crate) fn headed(out: &mut Writer, name: &[u8], value: u64) -> Result<(), AllocError>
    ensures { OnOk result (out.new ≡ out.old ++ spaced (word name.now ∷ number value ∷ [])) }
{
    out.word(name)?;
    out.number(value)
}

/// What is taken off a position, and how its value is read.
fn lowest(out: &mut Writer, low: u32, signed: bool) -> Result<(), AllocError>
    ensures { OnOk result (out.new ≡ out.old ++ spaced (number low ∷ word (sign_word signed) ∷ [])) }
{
    out.number(low as u64)?;
    out.word(sign_word(signed))
}
