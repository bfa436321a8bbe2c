ghost use Rattle.std.specs.Prelude.{◌≡◌};
ghost use Rattle.cov_dat.specs.KeyFields.{field_or_empty as value_or_empty, kind};
ghost use Rattle.std.specs.Prelude.{codes};
ghost use Rattle.std.specs.Str.{bytes_eq};

use cov_dat::{field, kind};

const BRANCH: &[u8] = b"branch";

/// The value of the key's first field of this name, empty where it has none.
pub(crate) fn field_or_empty<'a>(key: &'a [u8], name: &[u8]) -> &'a [u8]
    ensures { result.now ≡ value_or_empty key.now name.now }
{
    match field(key, name) {
        Some(value) => value,
        None => b"",
    }
}

/// Whether the key is that of a branch.
pub(crate) fn is_branch(key: &[u8]) -> bool
    ensures { result ≡ bytes_eq (kind key.now) (codes "branch") }
{
    kind(key) == BRANCH
}
