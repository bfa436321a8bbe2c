//! The line that a section begins with.

ghost use Rattle.std.specs.Prelude.{◌≡◌, ◌^◌, ◌∷◌, [], nat_lt, ℕ};
ghost use Rattle.cvd_cursor.specs.Numerals.{below};
ghost use Rattle.cvd_cursor.specs.Reads.{Reads, marks};
ghost use Rattle.cvd_text.specs.Tokens.{number, word};

use cvd_cursor::{Cursor, ReadFault, expect, number};

/// A section's name and how many things it has, where 64 bits hold that number.
pub fn read_heading(cursor: &mut Cursor<'_>, name: &[u8]) -> Result<Option<u64>, ReadFault>
    ensures { Reads (marks (λ n. word name.now ∷ number n ∷ [])) (λ n held. held ≡ below (2 ^ 64) n) cursor.old result cursor.new }
{
    expect(cursor, name)?;
    number(cursor)
}

/// Whether more than so many things must come.
pub fn wants_more(count: Option<u64>, read: usize) -> bool
    ensures { (n : ℕ) → count ≡ below (2 ^ 64) n → result ≡ nat_lt read n }
{
    match count {
        Some(count) => (read as u64) < count,
        None => true,
    }
}
