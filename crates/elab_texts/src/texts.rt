ghost use Rattle.std.specs.Prelude.{◌≡◌, ℕ, List, [], ◌++◌, map, codes, not, ◌&&◌, if◌then◌else◌, IfOk, OnOk};
ghost use Rattle.std.specs.List.{filter};
ghost use Rattle.scope_meaning.specs.BlockNames as spec;
ghost use Rattle.scope_meaning.specs.Declared.{is_in};
ghost use Rattle.scope_meaning.specs.ScopeTrees.{seen_constant};
ghost use Rattle.elab_overrides.specs.Overrides.{AreParameters};

use crate::number::{put_decimal, put_hex};
use cov_types::{ByteText, NoMemory};
use elab_overrides::Parameters;
use elab_types::Constant;
use std::alloc::Global;

/// The sign for a number that is read as signed or not, and the base.
fn base_text(signed: bool) -> &'static [u8]
    ensures { result.now ≡ (if signed then codes "'sh" else codes "'h") }
{
    if signed { b"'sh" } else { b"'h" }
}

/// Puts a constant with its size, sign and value at the end.
fn put_constant(alloc: Global, text: &mut ByteText, constant: &Constant) -> Result<(), NoMemory>
    ensures { OnOk result (text.new ≡ text.old ++ spec.constant_text (seen_constant constant.now)) }
{
    text.append(constant.name.as_slice())?;
    text.append(b"=")?;
    put_decimal(text, u32::from(constant.value.width))?;
    text.append(base_text(constant.signed))?;
    put_hex(alloc, text, constant.value)
}

/// Puts a wanted parameter behind those before it, of which there are none where it is the first; and says whether the next
/// one is the first.
fn with_parameter(
    alloc: Global,
    text: &mut ByteText,
    is_first: bool,
    is_wanted: bool,
    constant: &Constant,
) -> Result<bool, NoMemory>
    ensures text { OnOk result (text.new ≡ text.old
        ++ (if is_wanted then (if is_first then codes "#(" else codes ",") ++ spec.constant_text (seen_constant constant.now) else [])) }
    ensures first { IfOk result (λ first. first ≡ (is_first && not is_wanted)) }
{
    if !is_wanted {
        return Ok(is_first);
    }
    let separator: &[u8] = if is_first { b"#(" } else { b"," };
    text.append(separator)?;
    put_constant(alloc, text, constant)?;
    Ok(false)
}

/// The text with its list closed, if it has one.
fn closed(text: ByteText, is_first: bool) -> Result<ByteText, NoMemory>
    ensures { IfOk result (λ all. all ≡ text ++ (if is_first then [] else codes ")")) }
{
    let mut all = text;
    if is_first {
        return Ok(all);
    }
    all.append(b")")?;
    Ok(all)
}

/// The name of a module, and where some of the constants of its scope are among its parameters these with their values.
pub fn module_text(
    alloc: Global,
    name: &[u8],
    parameters: &Parameters,
    constants: &[Constant],
) -> Result<ByteText, NoMemory>
    ensures { (names : List (List ℕ)) → AreParameters names parameters.now
        → IfOk result (λ text. text ≡ spec.module_text name.now (filter (λ c. is_in c.name names) (map seen_constant constants.now))) }
{
    let mut text = ByteText::from_slice(alloc, name)?;
    let mut is_first = true;
    for constant in constants {
        let is_wanted = parameters.contains(constant.name.as_slice());
        is_first = with_parameter(alloc, &mut text, is_first, is_wanted, constant)?;
    }
    closed(text, is_first)
}
