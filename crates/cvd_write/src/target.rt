ghost use Rattle.std.specs.Prelude.{◌≡◌, [], ◌∷◌, ◌++◌, flat_map, if◌then◌else◌, OnOk};
ghost use Rattle.cvd_text.specs.Steps.{assigned_tokens};
ghost use Rattle.cvd_text.specs.Targets.{piece_tokens, target_tokens};
ghost use Rattle.cvd_text.specs.Tokens.{byte_text, digits};
ghost use Rattle.cvd_write.specs.Writing.{spaced};

use crate::expression::{expression, headed, position};
use crate::word::sign_word;
use crate::writer::{Writer, hex_digit};
use design_tree::{Piece, Target, Typed};
use std::alloc::AllocError;

/// What a step assigns: the number of targets, the targets, and the value.
pub(crate) fn assignment(
    out: &mut Writer,
    targets: &[Target],
    value: &Typed,
) -> Result<(), AllocError>
    ensures { OnOk result (out.new ≡ out.old ++ (spaced (assigned_tokens targets.now value.now) ++ 10 ∷ [])) }
{
    out.number(targets.len() as u64)?;
    all_targets(out, targets)?;
    expression(out, value)?;
    out.end()
}

/// Targets, one behind the other.
fn all_targets(out: &mut Writer, targets: &[Target]) -> Result<(), AllocError>
    ensures { OnOk result (out.new ≡ out.old ++ spaced (flat_map target_tokens targets.now)) }
{
    for one in targets {
        target(out, one)?;
    }
    Ok(())
}

fn target(out: &mut Writer, one: &Target) -> Result<(), AllocError>
    ensures { OnOk result (out.new ≡ out.old ++ spaced (target_tokens one.now)) }
{
    match one {
        Target::Whole { var } => headed(out, b"w", *var as u64),
        Target::Part { var, width, at } => {
            headed(out, b"b", *var as u64)?;
            out.number(*width as u64)?;
            position(out, at)
        }
        Target::Word { var, at } => {
            headed(out, b"m", *var as u64)?;
            position(out, at)
        }
        Target::WordPart {
            var,
            word,
            width,
            at,
        } => {
            headed(out, b"q", *var as u64)?;
            position(out, word)?;
            out.number(*width as u64)?;
            position(out, at)
        }
    }
}

/// Displayed pieces, one behind the other.
pub(crate) fn all_pieces(out: &mut Writer, pieces: &[Piece]) -> Result<(), AllocError>
    ensures { OnOk result (out.new ≡ out.old ++ spaced (flat_map piece_tokens pieces.now)) }
{
    for one in pieces {
        piece(out, one)?;
    }
    Ok(())
}

fn piece(out: &mut Writer, one: &Piece) -> Result<(), AllocError>
    ensures { OnOk result (out.new ≡ out.old ++ spaced (piece_tokens one.now)) }
{
    match one {
        Piece::Text(bytes) => {
            out.word(b"t")?;
            text(out, bytes.as_slice())
        }
        Piece::Dec {
            signed,
            short,
            value,
        } => {
            out.word(letter(*short, b"d", b"D"))?;
            out.word(sign_word(*signed))?;
            expression(out, value)
        }
        Piece::Hex { short, value } => {
            out.word(letter(*short, b"h", b"H"))?;
            expression(out, value)
        }
        Piece::Bin { short, value } => {
            out.word(letter(*short, b"b", b"B"))?;
            expression(out, value)
        }
    }
}

fn letter(short: bool, long_form: &'static [u8], short_form: &'static [u8]) -> &'static [u8]
    ensures { result.now ≡ (if short then short_form.now else long_form.now) }
{
    if short { short_form } else { long_form }
}

/// The bytes of a text behind a blank, two hexadecimal digits each.
fn text(out: &mut Writer, bytes: &[u8]) -> Result<(), AllocError>
    ensures { OnOk result (out.new ≡ out.old ++ spaced (digits bytes.now ∷ [])) }
{
    out.put(b" ")?;
    all_bytes(out, bytes)
}

fn all_bytes(out: &mut Writer, bytes: &[u8]) -> Result<(), AllocError>
    ensures { OnOk result (out.new ≡ out.old ++ flat_map byte_text bytes.now) }
{
    for one in bytes {
        byte(out, *one)?;
    }
    Ok(())
}

fn byte(out: &mut Writer, value: u8) -> Result<(), AllocError>
    ensures { OnOk result (out.new ≡ out.old ++ byte_text value) }
{
    out.put(&[hex_digit(value / 16), hex_digit(value % 16)])
}
