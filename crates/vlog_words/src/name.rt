//! The bytes of identifiers, and how many of them a text begins with.

ghost use Rattle.std.specs.Prelude.{◌≡◌, ◌≤◌, length};
ghost use Rattle.std.specs.List.{prefix_len};
ghost use Rattle.vlog_words.specs.Names as spec;

/// Whether an identifier may begin with this byte.
#[tactic(auto, unfolding(crate::specs::Names::begins_name))]
pub fn begins_name(byte: u8) -> bool
    ensures { result ≡ spec.begins_name byte }
{
    byte.is_ascii_alphabetic() || byte == b'_'
}

/// Whether an identifier may go on with this byte.
#[tactic(auto, unfolding(crate::specs::Names::continues_name))]
pub fn continues_name(byte: u8) -> bool
    ensures { result ≡ spec.continues_name byte }
{
    byte.is_ascii_alphanumeric() || byte == b'_' || byte == b'$'
}

/// Whether the text begins with what an identifier begins with.
#[tactic(auto, unfolding(crate::specs::Names::begins_with_name))]
pub fn begins_with_name(text: &[u8]) -> bool
    ensures { result ≡ spec.begins_with_name text.now }
{
    match text {
        [] => false,
        [first, ..] => begins_name(*first),
    }
}

/// How many bytes of an identifier the text begins with.
pub fn name_len(text: &[u8]) -> usize
    ensures value { result ≡ prefix_len spec.continues_name text.now }
    ensures within { result ≤ length text.now }
{
    text.iter()
        .take_while(|byte| continues_name(**byte))
        .count()
}
