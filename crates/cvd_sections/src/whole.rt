//! The first line, the number of counters, and the last line.

ghost use Rattle.std.specs.Prelude.{◌≡◌, ◌^◌, ◌≤◌, ◌∷◌, [], codes, nat_le, ℕ};
ghost use Rattle.cvd_cursor.specs.Numerals.{below};
ghost use Rattle.cvd_cursor.specs.Reads.{Reads};
ghost use Rattle.cvd_text.specs.Sections.{heading};
ghost use Rattle.cvd_text.specs.Spelling.{first_line, last_line, most_counters};
ghost use Rattle.cvd_sections.specs.Alone.{marks_alone};
ghost use Rattle.cvd_sections.specs.Closing.{Judges};

use crate::ending::close;
use crate::heading::read_heading;
use cvd_cursor::{Cursor, ReadFault, expect};

/// The greatest number of counters of a design.
const MOST_COUNTERS: u64 = 4_194_304;

/// The line that a design file begins with.
pub fn read_first_line(cursor: &mut Cursor<'_>) -> Result<(), ReadFault>
    ensures { Reads (λ (u : Unit {0}). marks_alone (first_line ∷ [])) (λ u held. Unit {0}) cursor.old result cursor.new }
{
    expect(cursor, b"CVD")?;
    expect(cursor, b"1")?;
    cursor.end_line(true)
}

/// The line that a design file ends with.
pub fn read_last_line(cursor: &mut Cursor<'_>) -> Result<(), ReadFault>
    ensures { Reads (λ (u : Unit {0}). marks_alone (last_line ∷ [])) (λ u held. Unit {0}) cursor.old result cursor.new }
{
    expect(cursor, b"end")?;
    cursor.end_line(true)
}

/// The number of counters.
pub fn read_counters(cursor: &mut Cursor<'_>) -> Result<u32, ReadFault>
    ensures { Reads (λ n. marks_alone (heading (codes "counters") n (nat_le n most_counters) ∷ [])) (λ n held. held ≡ n) cursor.old result cursor.new }
{
    let count = read_heading(cursor, b"counters")?;
    close(cursor, counters_of(count))
}

fn counters_of(count: Option<u64>) -> Option<u32>
    ensures { (n : ℕ) → count ≡ below (2 ^ 64) n → Judges (λ m. nat_le m most_counters) (λ m held. held ≡ m) n result }
{
    match count {
        Some(count) if count <= MOST_COUNTERS => Some(count as u32),
        _ => None,
    }
}
