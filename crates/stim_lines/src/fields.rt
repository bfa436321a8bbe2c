//! The fields of a line.

ghost use Rattle.std.specs.Prelude.{◌≡◌, ◌≤◌, ◌<◌, ◌∷◌, [], length, IfNone, IfSome};
ghost use Rattle.std.specs.List.{prefix_len};
ghost use Rattle.stim_lines.specs.Fields as spec;

/// The first field of a line, and what stands behind it.
#[derive(Clone, Copy)]
pub(crate) struct FieldCut<'a> {
    pub(crate) field: &'a [u8],
    pub(crate) rest: &'a [u8],
}

/// Cuts off the first field, if there is one.
pub(crate) fn cut_field(line: &[u8]) -> Option<FieldCut<'_>>
    ensures field { IfSome result (λ cut. spec.fields_of line.now ≡ cut.field.now ∷ spec.fields_of cut.rest.now) }
    ensures shorter { IfSome result (λ cut. length cut.rest.now < length line.now) }
    ensures none { IfNone result (spec.fields_of line.now ≡ []) }
{
    let text = &line[blank_len(line)..];
    let len = field_len(text);
    if len == 0 {
        return None;
    }
    Some(FieldCut {
        field: &text[..len],
        rest: &text[len..],
    })
}

/// How many blanks a line begins with.
fn blank_len(line: &[u8]) -> usize
    ensures value { result ≡ prefix_len spec.is_blank line.now }
    ensures within { result ≤ length line.now }
{
    line.iter().take_while(|byte| **byte == b' ').count()
}

/// How many bytes stand before the first blank.
fn field_len(line: &[u8]) -> usize
    ensures value { result ≡ prefix_len spec.is_field_byte line.now }
    ensures within { result ≤ length line.now }
{
    line.iter().take_while(|byte| **byte != b' ').count()
}

/// How many fields a line has.
pub(crate) fn count_fields(line: &[u8]) -> usize
    ensures { result ≡ length (spec.fields_of line.now) }
{
    let mut count = 0;
    let mut rest = line;
    while let Some(cut) = cut_field(rest) {
        count += 1;
        rest = cut.rest;
    }
    count
}
