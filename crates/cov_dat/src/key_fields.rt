ghost use Rattle.std.specs.Prelude.{◌≡◌, ◌<◌, ◌∷◌, length};
ghost use Rattle.std.specs.Option.{option_copied};
ghost use Rattle.cov_dat.specs.FieldWalk.{BeginsField};
ghost use Rattle.cov_dat.specs.KeyFields.{field, field_texts, kind, page_kind, value_if};

use cov_port::place_of;

/// The value of the key's first field of this name. It takes no memory.
pub fn field<'a>(key: &'a [u8], name: &[u8]) -> Option<&'a [u8]>
    ensures { option_copied result ≡ field key.now name.now }
{
    let mut rest = from_field(key);
    'fields: while !rest.is_empty() {
        let (text, left) = cut_field(rest);
        if let Some(value) = value_if(text, name) {
            return Some(value);
        }
        rest = left;
    }
    None
}

/// What stands from the first field on.
fn from_field(key: &[u8]) -> &[u8]
    ensures texts { field_texts result.now ≡ field_texts key.now }
    ensures begins { BeginsField result.now }
{
    let at = place_of(1, key);
    &key[at..]
}

/// The text of the first field, without the byte 1 that begins it, and what stands behind it.
fn cut_field(rest: &[u8]) -> (&[u8], &[u8])
    requires some { 0 < length rest.now }
    requires begins { BeginsField rest.now }
    ensures texts { field_texts rest.now ≡ result.0.now ∷ field_texts result.1.now }
    ensures begins { BeginsField result.1.now }
    ensures shorter { length result.1.now < length rest.now }
{
    let text = &rest[1..];
    let end = place_of(1, text);
    (&text[..end], &text[end..])
}

/// The key's type: its field `t`, and without one what its page tells. It takes no memory.
pub fn kind(key: &[u8]) -> &[u8]
    ensures { result.now ≡ kind key.now }
{
    if let Some(value) = field(key, b"t") {
        return value;
    }
    match field(key, b"page") {
        Some(page) => page_kind(page),
        None => b"",
    }
}

/// The type that a page tells.
fn page_kind(page: &[u8]) -> &[u8]
    ensures { result.now ≡ page_kind page.now }
{
    if !page.starts_with(b"v_") {
        return b"";
    }
    let rest = &page[2..];
    &rest[..place_of(b'/', rest)]
}

/// The value of the field with this text, where it has this name.
fn value_if<'a>(text: &'a [u8], name: &[u8]) -> Option<&'a [u8]>
    ensures { option_copied result ≡ value_if text.now name.now }
{
    let end = place_of(2, text);
    if &text[..end] != name {
        return None;
    }
    if end == text.len() {
        return Some(&text[end..]);
    }
    Some(&text[end + 1..])
}
