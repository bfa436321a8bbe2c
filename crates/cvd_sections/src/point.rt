//! Coverage points.

ghost use Rattle.std.specs.Prelude.{◌≡◌, ◌^◌, ◌&&◌, ℕ, List, length, nat_le};
ghost use Rattle.cov_port.specs.KeyTest.{is_key_text};
ghost use Rattle.cov_types.specs.Limits.{most};
ghost use Rattle.cov_types.specs.declared.limit.LimitName.TheVariants as limit;
ghost use Rattle.cvd_cursor.specs.Numerals.{below};
ghost use Rattle.std.specs.Option.{option_copied};
ghost use Rattle.cvd_cursor.specs.Reads.{Reads, marks};
ghost use Rattle.cvd_text.specs.Sections.{is_below, point_line, point_lines};
ghost use Rattle.design_tree.specs.declared.instrumented.PointRow.{PointRow};
ghost use Rattle.cvd_sections.specs.Alone.{marks_alone, row_marks};
ghost use Rattle.cvd_sections.specs.Closing.{Judges};
ghost use Rattle.cvd_line_ends.specs.Ends.{ReadsLines};
ghost use Rattle.cvd_sections.specs.Keys.{AreCut, HoldsSides, last_key, sides_tokens};
ghost use Rattle.cvd_sections.specs.Places.{IsLastOf, is_behind};

use crate::counters::read_list;
use crate::ending::close;
use crate::heading::{read_heading, wants_more};
use crate::key::read_key;
use cov_port::is_key;
use cov_types::{ByteText, Rows};
use cvd_cursor::{Cursor, ReadFault};
use design_tree::PointRow;
use std::alloc::Global;

/// The greatest number of points of a design.
const MOST_POINTS: u64 = 1_048_576;

/// The greatest number of bytes of a key.
const MOST_BYTES: usize = 65_000;

/// Plus and minus counters, each list where all of them are counters of the design.
type Sides = (Option<Rows<u32>>, Option<Rows<u32>>);

/// The points of a design with so many counters.
pub fn read_points(
    alloc: Global,
    cursor: &mut Cursor<'_>,
    counters: u32,
) -> Result<Rows<PointRow>, ReadFault>
    requires { AreCut cursor.old.rest }
    ensures { ReadsLines (λ ps. marks_alone (point_lines counters ps)) (λ ps held. held ≡ ps) cursor.old result cursor.new }
{
    let count = read_heading(cursor, b"points")?;
    cursor.end_line(may_be(count))?;
    let mut kept: Rows<PointRow> = Rows::new(alloc);
    'points: while wants_more(count, kept.len()) {
        let point = read_point(alloc, cursor, counters, last_key(kept.as_slice()))?;
        kept.push(point)?;
    }
    Ok(kept)
}

/// Whether a design may have so many points.
fn may_be(count: Option<u64>) -> bool
    ensures { (n : ℕ) → count ≡ below (2 ^ 64) n → result ≡ nat_le n (most limit.Points) }
{
    match count {
        Some(count) => count <= MOST_POINTS,
        None => false,
    }
}

/// The key of the last point.
fn last_key(points: &[PointRow]) -> Option<&[u8]>
    ensures { option_copied result ≡ last_key points.now }
{
    match points.last() {
        Some(point) => Some(point.key.as_slice()),
        None => None,
    }
}

fn read_point(
    alloc: Global,
    cursor: &mut Cursor<'_>,
    counters: u32,
    last: Option<&[u8]>,
) -> Result<PointRow, ReadFault>
    requires { AreCut cursor.old.rest }
    ensures { (before : List PointRow) → IsLastOf is_below (λ p. p.key) before (option_copied last.entry)
        → ReadsLines (λ p. row_marks (point_line counters before p)) (λ p held. held ≡ p) cursor.old result cursor.new }
{
    let sides = read_sides(alloc, cursor, counters)?;
    let key = read_key(alloc, cursor)?;
    let found = point_of(sides, key, counters, last);
    close(cursor, found)
}

fn read_sides(alloc: Global, cursor: &mut Cursor<'_>, counters: u32) -> Result<Sides, ReadFault>
    ensures { Reads (marks sides_tokens) (HoldsSides counters) cursor.old result cursor.new }
{
    let plus = read_list(alloc, cursor, counters)?;
    let minus = read_list(alloc, cursor, counters)?;
    Ok((plus, minus))
}

/// A point with counters of the design, whose key is one, isn't too long, and comes behind the last one.
fn point_of(sides: Sides, key: ByteText, counters: u32, last: Option<&[u8]>) -> Option<PointRow>
    ensures { (before : List PointRow) (p : PointRow) → IsLastOf is_below (λ q. q.key) before (option_copied last.entry)
        → HoldsSides counters (p.plus, p.minus) sides → key ≡ p.key
        → Judges (λ q. (point_line counters before q).holds) (λ q held. held ≡ q) p result }
{
    let (plus, minus) = sides;
    let (Some(plus), Some(minus)) = (plus, minus) else {
        return None;
    };
    if !may_be_key(key.as_slice(), last) {
        return None;
    }
    Some(PointRow { plus, minus, key })
}

/// Whether bytes are a key that isn't too long, and come behind the last one.
fn may_be_key(key: &[u8], last: Option<&[u8]>) -> bool
    ensures { result ≡ (is_key_text key.now && nat_le (length key.now) (most limit.KeyBytes) && is_behind is_below (option_copied last.entry) key.now) }
{
    is_key(key) && key.len() <= MOST_BYTES && is_behind(last, key)
}

fn is_behind(last: Option<&[u8]>, key: &[u8]) -> bool
    ensures { result ≡ is_behind is_below (option_copied last.entry) key.now }
{
    match last {
        Some(last) => last.cmp(key).is_lt(),
        None => true,
    }
}
