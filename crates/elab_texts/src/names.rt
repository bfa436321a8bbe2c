ghost use Rattle.std.specs.Prelude.{◌≡◌, ◌++◌, codes, replicate, IfOk, OnOk};
ghost use Rattle.scope_meaning.specs.BlockNames as spec;

use crate::number::{put_decimal, put_integer};
use cov_types::{ByteText, NoMemory};
use std::alloc::Global;

/// The name of the block of a pass of a generate loop, in which the genvar has this value.
pub fn pass_name(alloc: Global, block: &[u8], value: i32) -> Result<ByteText, NoMemory>
    ensures { IfOk result (λ name. name ≡ spec.pass_name block.now value) }
{
    let mut name = ByteText::from_slice(alloc, block)?;
    name.append(b"[")?;
    put_integer(alloc, &mut name, value)?;
    name.append(b"]")?;
    Ok(name)
}

/// Puts zeros at the end.
fn put_zeros(text: &mut ByteText, count: usize) -> Result<(), NoMemory>
    ensures { OnOk result (text.new ≡ text.old ++ replicate count 48) }
{
    for done in 0..count {
        text.append(b"0")?;
    }
    Ok(())
}

/// The name of an unnamed arm of a generate construct, with so many zeros before the construct's number.
pub fn genblk(alloc: Global, construct: u32, zeros: usize) -> Result<ByteText, NoMemory>
    ensures { IfOk result (λ name. name ≡ spec.genblk construct zeros) }
{
    let mut name = ByteText::from_slice(alloc, b"genblk")?;
    put_zeros(&mut name, zeros)?;
    put_decimal(&mut name, construct)?;
    Ok(name)
}

/// The path of a scope inside another.
pub fn inside(alloc: Global, path: &[u8], name: &[u8]) -> Result<ByteText, NoMemory>
    ensures { IfOk result (λ text. text ≡ spec.inside path.now name.now) }
{
    let mut text = ByteText::from_slice(alloc, path)?;
    text.append(b".")?;
    text.append(name)?;
    Ok(text)
}
