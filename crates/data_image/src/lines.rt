ghost use Rattle.std.specs.Prelude.{◌≡◌, ◌≤◌, ◌<◌, ◌+◌, ◌∷◌, ◌++◌, [], All, length, flat_map, vec_len, vec_capacity, sum_by, IfOk};
ghost use Rattle.cov_dat.specs.DataLine.{header};
ghost use Rattle.cov_dat.specs.DataText.{record_text};
ghost use Rattle.data_image.specs.PointText.{room_of};
ghost use Rattle.data_image.specs.Lines.{line_of, most_bytes};

use crate::point_count::{count_in_bits, greatest};
use cov_types::NoMemory;
use design_tree::PointRow;
use itoa::Buffer;

const HEADER: &[u8] = b"# SystemC::Coverage-3\n";

/// What a line has beside its key: `C`, two quotes, two blanks, at most 20 digits and a line feed.
const MOST_BYTES_BESIDE_KEY: usize = 26;

/// A sum. One that doesn't fit is more than any memory has.
fn sum(a: usize, b: usize) -> Result<usize, NoMemory>
    ensures { IfOk result (λ n. n ≡ a + b) }
{
    match a.checked_add(b) {
        Some(all) => Ok(all),
        None => Err(NoMemory),
    }
}

/// How many bytes the data file of these points has at most.
pub(crate) fn bytes_for(points: &[PointRow]) -> Result<usize, NoMemory>
    ensures { IfOk result (λ n. n ≡ room_of points.now) }
{
    let mut bytes = HEADER.len();
    for point in points {
        let more = sum(point.key.len(), MOST_BYTES_BESIDE_KEY)?;
        bytes = sum(bytes, more)?;
    }
    Ok(bytes)
}

/// Puts bytes at the end. There is room for them.
fn put(out: &mut Vec<u8>, bytes: &[u8])
    requires { vec_len out.old + length bytes.now ≤ vec_capacity out.old }
    ensures items { out.new.items ≡ out.old.items ++ bytes.now }
    ensures len { vec_len out.new ≡ vec_len out.old + length bytes.now }
    ensures capacity { vec_capacity out.old ≤ vec_capacity out.new }
{
    match out.extend_from_slice(bytes) {
        Ok(()) => {}
        Err(_) => unreachable!(),
    }
}

/// Puts the first line.
pub(crate) fn put_header(out: &mut Vec<u8>)
    requires { vec_len out.old + 22 ≤ vec_capacity out.old }
    ensures items { out.new.items ≡ out.old.items ++ header ++ 10 ∷ [] }
    ensures len { vec_len out.new ≡ vec_len out.old + 22 }
    ensures capacity { vec_capacity out.old ≤ vec_capacity out.new }
{
    put(out, HEADER);
}

/// Puts a key and its count as a line.
fn put_line(out: &mut Vec<u8>, key: &[u8], count: u64)
    requires { vec_len out.old + (length key.now + 26) ≤ vec_capacity out.old }
    ensures items { out.new.items ≡ out.old.items ++ record_text (key.now, count) }
    ensures len { vec_len out.new ≤ vec_len out.old + (length key.now + 26) }
    ensures capacity { vec_capacity out.old ≤ vec_capacity out.new }
{
    let mut buffer = Buffer::new();
    put(out, b"C '");
    put(out, key);
    put(out, b"' ");
    put(out, buffer.format(count).as_bytes());
    put(out, b"\n");
}

/// Puts a line for each point, in the order in which they stand.
pub(crate) fn put_lines(out: &mut Vec<u8>, points: &[PointRow], counts: &[u64], bits: u32)
    requires room { vec_len out.old + sum_by most_bytes points.now ≤ vec_capacity out.old }
    requires plus { All (λ point. All (λ c. c < length counts.now) point.plus) points.now }
    requires minus { All (λ point. All (λ c. c < length counts.now) point.minus) points.now }
    requires bits { bits ≤ 64 }
    ensures items { out.new.items ≡ out.old.items ++ flat_map (line_of bits counts.now) points.now }
    ensures capacity { vec_capacity out.old ≤ vec_capacity out.new }
{
    let most = greatest(bits);
    for point in points {
        put_line(
            out,
            point.key.as_slice(),
            count_in_bits(point, counts, most),
        );
    }
}
