ghost use Rattle.std.specs.Prelude.{◌≡◌, [], ◌++◌, codes, decimal, IfOk, OnOk, slice_index_or};
ghost use Rattle.cov_types.specs.Key.{field_text};
ghost use Rattle.cov_points.specs.KeyText as keys;
ghost use Rattle.cov_points.specs.KeyText.{kind_text, page_text};

use cov_points::{Point, PointKind};
use cov_port::line_text;
use cov_types::{ByteText, NoMemory, Rows};
use itoa::Buffer;
use std::alloc::Global;

/// Puts a field at the end.
fn push_field(text: &mut ByteText, name: &[u8], value: &[u8]) -> Result<(), NoMemory>
    ensures { OnOk result (text.new ≡ text.old ++ field_text (name.now, value.now)) }
{
    text.append(b"\x01")?;
    text.append(name)?;
    text.append(b"\x02")?;
    text.append(value)
}

/// Puts a field with a number at the end.
fn push_number(text: &mut ByteText, name: &[u8], number: u32) -> Result<(), NoMemory>
    ensures { OnOk result (text.new ≡ text.old ++ field_text (name.now, decimal number)) }
{
    let mut buffer = Buffer::new();
    push_field(text, name, buffer.format(number).as_bytes())
}

/// The type of a point, as it is written.
fn kind_name(kind: PointKind) -> &'static str
    ensures { result.now ≡ kind_text kind }
{
    match kind {
        PointKind::Line => "line",
        PointKind::Branch => "branch",
        PointKind::Toggle => "toggle",
        PointKind::User => "user",
    }
}

/// The page of a point, from its type and its module text.
fn page_of(alloc: Global, kind: PointKind, module: &[u8]) -> Result<ByteText, NoMemory>
    ensures { IfOk result (λ page. page ≡ page_text kind module.now) }
{
    let mut page = ByteText::new(alloc);
    page.append(b"v_")?;
    page.append(kind_name(kind).as_bytes())?;
    page.append(b"/")?;
    page.append(module)?;
    Ok(page)
}

/// The name of the file with this number; nothing past the last.
fn file_name(names: &Rows<ByteText>, file: u32) -> &[u8]
    ensures { result.now ≡ slice_index_or names.now file [] }
{
    match names.get(file as usize) {
        Some(name) => name.as_slice(),
        None => b"",
    }
}

/// The key of a point: its fields, one after the other. `names` are those of the files, by their numbers.
pub fn key_text(alloc: Global, point: &Point, names: &Rows<ByteText>) -> Result<ByteText, NoMemory>
    ensures { IfOk result (λ key. key ≡ keys.key_text names.now point.now) }
{
    let mut key = ByteText::new(alloc);
    push_field(&mut key, b"f", file_name(names, point.place.file))?;
    push_number(&mut key, b"l", point.place.line)?;
    push_number(&mut key, b"n", point.place.column)?;
    push_field(&mut key, b"t", kind_name(point.kind).as_bytes())?;
    let page = page_of(alloc, point.kind, point.module.as_slice())?;
    push_field(&mut key, b"page", page.as_slice())?;
    push_field(&mut key, b"o", point.comment.as_slice())?;
    let lines = line_text(alloc, &point.lines)?;
    push_field(&mut key, b"S", lines.as_slice())?;
    push_field(&mut key, b"h", point.hier.as_slice())?;
    Ok(key)
}
