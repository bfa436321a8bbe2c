ghost use Rattle.std.specs.Prelude.{◌≡◌, codes};
ghost use Rattle.std.specs.Option.{option_copied};
ghost use Rattle.cov_dat.specs.KeyFields.{field};
ghost use Rattle.report_text.specs.Items.{line_of};
ghost use Rattle.report_table.specs.Seen.{IsRead, seen_point};

use cov_dat::field;
use cov_port::read_dec;

/// The greatest number of a line.
const MOST_LINE_NUMBER: u64 = 4_194_304;

/// A coverage point, which borrows its key. What its key tells of its place is read once.
#[derive(Clone, Copy)]
pub(crate) struct DataPoint<'a> {
    pub(crate) key: &'a [u8],
    pub(crate) count: u64,
    file: Option<&'a [u8]>,
    line: Option<u32>,
    list: Option<&'a [u8]>,
}

impl<'a> DataPoint<'a> {
    /// The point of a key.
    pub(crate) fn new(key: &'a [u8], count: u64) -> DataPoint<'a>
        ensures seen { seen_point result ≡ (key.now, count) }
        ensures read { IsRead result }
    {
        DataPoint {
            key,
            count,
            file: field(key, b"f"),
            line: own_line(key),
            list: field(key, b"S"),
        }
    }

    /// The name of its file.
    pub(crate) fn file(&self) -> Option<&'a [u8]>
        requires { IsRead self.now }
        ensures { option_copied result ≡ field self.now.key.now (codes "f") }
    {
        self.file
    }

    /// The number of its own line, where its `l` is one.
    pub(crate) fn line(&self) -> Option<u32>
        requires { IsRead self.now }
        ensures { result ≡ line_of (self.now.key.now, 0) }
    {
        self.line
    }

    /// The text of its list of lines.
    pub(crate) fn list(&self) -> Option<&'a [u8]>
        requires { IsRead self.now }
        ensures { option_copied result ≡ field self.now.key.now (codes "S") }
    {
        self.list
    }
}

/// The number of the key's line, where its `l` is one.
fn own_line(key: &[u8]) -> Option<u32>
    ensures { result ≡ line_of (key.now, 0) }
{
    match read_dec(field(key, b"l")?, MOST_LINE_NUMBER) {
        Some(number) if number >= 1 => Some(number as u32),
        _ => None,
    }
}
