//! Names of inputs.

ghost use Rattle.std.specs.Prelude.{◌≡◌, ◌||◌, ◌∷◌, [], List, ℕ, OnOk};
ghost use Rattle.std.specs.List.{list_all};
ghost use Rattle.std.specs.Str.{bytes_eq};
ghost use Rattle.cvd_cursor.specs.Reads.{Reads, marks};
ghost use Rattle.cvd_text.specs.Tokens.{word};
ghost use Rattle.design_meaning.specs.Names.{begins_name, continues_name, is_name};
ghost use Rattle.cvd_inputs.specs.Names.{has_name};

use cvd_cursor::{Cursor, ReadFault};
use std::alloc::AllocError;
use std::collections::BTreeMap;

/// A word, whatever it is.
pub(crate) fn read_name<'a>(cursor: &mut Cursor<'a>) -> Result<&'a [u8], ReadFault>
    ensures { Reads (marks (λ w. word w ∷ [])) (λ w held. held.now ≡ w) cursor.old result cursor.new }
{
    let Some(word) = cursor.peek() else {
        return Err(cursor.wrong(false));
    };
    cursor.skip();
    Ok(word)
}

/// Whether a word is a name: a letter or `_`, and then letters, digits, `_` and `$`.
pub(crate) fn is_name(word: &[u8]) -> bool
    ensures { result ≡ is_name word.now }
{
    match word {
        [] => false,
        [first, rest @ ..] => begins_name(*first) && all_continue(rest),
    }
}

fn all_continue(bytes: &[u8]) -> bool
    ensures { result ≡ list_all continues_name bytes.now }
{
    for byte in bytes {
        if !continues_name(*byte) {
            return false;
        }
    }
    true
}

fn begins_name(byte: u8) -> bool
    ensures { result ≡ begins_name byte }
{
    (b'A' <= byte && byte <= b'Z') || (b'a' <= byte && byte <= b'z') || byte == b'_'
}

fn continues_name(byte: u8) -> bool
    ensures { result ≡ continues_name byte }
{
    begins_name(byte) || (b'0' <= byte && byte <= b'9') || byte == b'$'
}

/// Whether a name is among others.
pub(crate) fn has_name<'a>(names: &BTreeMap<&'a [u8], ()>, name: &'a [u8]) -> bool
    ensures { result ≡ has_name names.now name.now }
{
    names.contains_key(&name)
}

/// Puts a name to others.
pub(crate) fn add_name<'a>(
    names: &mut BTreeMap<&'a [u8], ()>,
    name: &'a [u8],
) -> Result<(), AllocError>
    ensures { OnOk result ((other : List ℕ) → has_name names.new other ≡ (bytes_eq name.now other || has_name names.old other)) }
{
    names.insert(name, ())?;
    Ok(())
}
