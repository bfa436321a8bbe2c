ghost use Rattle.std.specs.Prelude.{◌≡◌, ℕ, ◌^◌};
ghost use Rattle.cvd_cursor.specs.Numerals.{below, number_tokens};
ghost use Rattle.cvd_cursor.specs.Reads.{Reads, marks};
ghost use Rattle.cvd_nodes.specs.Nodes.{Low, low_marks};

use cvd_cursor::{Cursor, ReadFault, number, sign};

/// A number, where 8 bits hold it.
pub fn number8(cursor: &mut Cursor<'_>) -> Result<Option<u8>, ReadFault>
    ensures { Reads (marks number_tokens) (λ n held. held ≡ below 256 n) cursor.old result cursor.new }
{
    let value = number(cursor)?;
    Ok(narrow8(value))
}

fn narrow8(value: Option<u64>) -> Option<u8>
    ensures { (n : ℕ) → value ≡ below (2 ^ 64) n → result ≡ below 256 n }
{
    match value {
        Some(value) if value < 256 => Some(value as u8),
        _ => None,
    }
}

/// A number, where 32 bits hold it.
pub fn number32(cursor: &mut Cursor<'_>) -> Result<Option<u32>, ReadFault>
    ensures { Reads (marks number_tokens) (λ n held. held ≡ below (2 ^ 32) n) cursor.old result cursor.new }
{
    let value = number(cursor)?;
    Ok(narrow32(value))
}

fn narrow32(value: Option<u64>) -> Option<u32>
    ensures { (n : ℕ) → value ≡ below (2 ^ 64) n → result ≡ below (2 ^ 32) n }
{
    match value {
        Some(value) if value < 1 << 32 => Some(value as u32),
        _ => None,
    }
}

/// What is taken off a position, where 32 bits hold it, and how its value is read.
pub fn low(cursor: &mut Cursor<'_>) -> Result<(Option<u32>, bool), ReadFault>
    ensures { Reads low_marks (λ (p : Low) held. (held.0 ≡ below (2 ^ 32) p.0) × (held.1 ≡ p.1)) cursor.old result cursor.new }
{
    let low = number32(cursor)?;
    let signed = sign(cursor)?;
    Ok((low, signed))
}
