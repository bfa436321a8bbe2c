//! Lines that say more than a status.

ghost use Rattle.std.specs.Prelude.{◌≡◌, ◌++◌, ◌∷◌, [], decimal, IfOk, OnOk};
ghost use Rattle.command_ending.specs.ErrorLines as spec;

use cov_port::{ByteText, LimitName, NoMemory, Place};
use itoa::Buffer;
use std::alloc::Global;

/// The line of a limit that is passed.
pub fn limit_line(alloc: Global, name: LimitName) -> Result<ByteText, NoMemory>
    ensures { IfOk result (λ line. line ≡ spec.limit_line name) }
{
    let mut line = ByteText::from_slice(alloc, b"vcov: Limit: ")?;
    line.append(name.name())?;
    line.append(b" ")?;
    append_number(&mut line, name.most().into())?;
    line.append(b"\n")?;
    Ok(line)
}

/// The line of a file that can't be opened.
pub(crate) fn open_line(alloc: Global, name: &str) -> Result<ByteText, NoMemory>
    ensures { IfOk result (λ line. line ≡ spec.open_line name.now) }
{
    named_line(alloc, b"vcov: Fault: open ", name)
}

/// The line of a file that can't be read.
pub fn read_line(alloc: Global, name: &str) -> Result<ByteText, NoMemory>
    ensures { IfOk result (λ line. line ≡ spec.read_line name.now) }
{
    named_line(alloc, b"vcov: Fault: read ", name)
}

/// The line of a file that can't be stored.
pub fn store_line(alloc: Global, name: &str) -> Result<ByteText, NoMemory>
    ensures { IfOk result (λ line. line ≡ spec.store_line name.now) }
{
    named_line(alloc, b"vcov: Fault: store ", name)
}

/// A line that ends with a name.
fn named_line(alloc: Global, front: &[u8], name: &str) -> Result<ByteText, NoMemory>
    ensures { IfOk result (λ line. line ≡ front.now ++ name.now ++ 10 ∷ []) }
{
    let mut line = ByteText::from_slice(alloc, front)?;
    line.append(name.as_bytes())?;
    line.append(b"\n")?;
    Ok(line)
}

/// The line of a design that is refused at a place of a file, with a code.
pub(crate) fn design_line(
    alloc: Global,
    name: &str,
    place: Place,
    code: &[u8],
) -> Result<ByteText, NoMemory>
    ensures { IfOk result (λ line. line ≡ spec.design_line name.now place code.now) }
{
    let mut line = ByteText::from_slice(alloc, b"vcov: BadDesign: ")?;
    line.append(name.as_bytes())?;
    line.append(b":")?;
    append_number(&mut line, place.line.into())?;
    line.append(b":")?;
    append_number(&mut line, place.column.into())?;
    line.append(b": ")?;
    line.append(code)?;
    line.append(b"\n")?;
    Ok(line)
}

/// The line of a data file that is refused at a line, with a code.
pub(crate) fn data_line(
    alloc: Global,
    name: &str,
    number: u64,
    code: &[u8],
) -> Result<ByteText, NoMemory>
    ensures { IfOk result (λ line. line ≡ spec.data_line name.now number code.now) }
{
    let mut line = ByteText::from_slice(alloc, b"vcov: BadData: ")?;
    line.append(name.as_bytes())?;
    line.append(b":")?;
    append_number(&mut line, number.into())?;
    line.append(b": ")?;
    line.append(code)?;
    line.append(b"\n")?;
    Ok(line)
}

/// The line of a design file that is refused at a byte, with a code.
pub(crate) fn byte_line(
    alloc: Global,
    name: &str,
    number: u64,
    code: &[u8],
) -> Result<ByteText, NoMemory>
    ensures { IfOk result (λ line. line ≡ spec.byte_line name.now number code.now) }
{
    let mut line = ByteText::from_slice(alloc, b"vcov: BadData: ")?;
    line.append(name.as_bytes())?;
    line.append(b"@")?;
    append_number(&mut line, number.into())?;
    line.append(b": ")?;
    line.append(code)?;
    line.append(b"\n")?;
    Ok(line)
}

/// Puts a number at the end, in decimal.
pub fn append_number(text: &mut ByteText, number: u128) -> Result<(), NoMemory>
    ensures { OnOk result (text.new ≡ text.old ++ decimal number) }
{
    let mut buffer = Buffer::new();
    text.append(buffer.format(number).as_bytes())
}
