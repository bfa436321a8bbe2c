ghost use Rattle.std.specs.Prelude.{◌≡◌, ◌≤◌, ◌<◌, ◌+◌, ◌∷◌, Err, true, length, IfOk, IfErr, IfSome, IsErrOf};
ghost use Rattle.memchr.specs.Find.{is_byte, IsLastByte};
ghost use Rattle.cov_types.specs.Key.{IsKey};
ghost use Rattle.cov_dat.specs.DataLine.{at_last_quote, count_after, is_skipped, says, says_record, says_within};
ghost use Rattle.cov_port.specs.Lines.{Line, bytes_of, is_long};
ghost use Rattle.cov_dat.specs.Seen.{seen_line, seen_parts};
ghost use Rattle.cov_dat.specs.Streaming.{IsFileFault};
ghost use Rattle.cov_dat.specs.Taking.{IsFront, LiesIn, NamesLine, StandsAt, seen_place};

use crate::fault::DataFault;
use crate::key_place::KeyPlace;
use cov_port::{LimitName, is_key, read_dec};
use memchr::memrchr;

/// The greatest number of bytes of a data file.
pub(crate) const MOST_BYTES: u64 = 4_294_967_296;

/// The greatest number of bytes of a line without its line feed.
const MOST_LINE: usize = 65_535;

/// What the line with this number says, where the file has `bytes` bytes up to the line's end.
pub(crate) fn read_line(
    number: u64,
    bytes: u64,
    line: &[u8],
    ended: bool,
) -> Result<Option<(&[u8], u64)>, DataFault>
    ensures says { seen_line result ≡ says_within bytes number (line.now, ended) }
    ensures key { IfOk result (λ said. IfSome said (λ r. IsKey r.0.now)) }
    ensures place { IfOk result (λ said. IfSome said (λ r. StandsAt line.now r.0.now)) }
    ensures line { IfErr result (λ flaw. NamesLine flaw number) }
    ensures no_failure { IsErrOf result DataFault.Failed → ⊥ }
{
    if bytes > MOST_BYTES {
        return Err(DataFault::Limit(LimitName::DataBytes));
    }
    if line.len() > MOST_LINE {
        return Err(DataFault::LineTooLong(number));
    }
    if number == 1 {
        if ended && line == b"# SystemC::Coverage-3".as_slice() {
            return Ok(None);
        }
        return Err(DataFault::BadHeader(number));
    }
    if !ended {
        return Err(DataFault::BadRecord(number));
    }
    if is_skipped(line) {
        return Ok(None);
    }
    read_record(number, line)
}

/// The same, with the place of the key in the line.
pub(crate) fn read_place(
    number: u64,
    bytes: u64,
    line: &[u8],
    ended: bool,
) -> Result<Option<KeyPlace>, DataFault>
    ensures says { seen_place line.now result ≡ says_within bytes number (line.now, ended) }
    ensures place { IfOk result (λ said. IfSome said (λ p. LiesIn line.now p)) }
    ensures line { IfErr result (λ flaw. NamesLine flaw number) }
    ensures no_failure { IsErrOf result DataFault.Failed → ⊥ }
{
    match read_line(number, bytes, line, ended) {
        Ok(Some((key, count))) => Ok(Some(KeyPlace {
            end: 3 + key.len(),
            count,
        })),
        Ok(None) => Ok(None),
        Err(fault) => Err(fault),
    }
}

/// Why a line that is too long is refused, behind this many bytes.
pub(crate) fn long_line(number: u64, before: u64) -> DataFault
    requires { before ≤ 4294967296 }
    ensures says { (l : Line) → is_long l ≡ true → says_within (before + bytes_of l) number l ≡ Err result }
    ensures line { NamesLine result number }
    ensures names { 1 ≤ number → IsFileFault result }
    ensures no_failure { result ≡ DataFault.Failed → ⊥ }
{
    if before + 65_536 > MOST_BYTES {
        return DataFault::Limit(LimitName::DataBytes);
    }
    DataFault::LineTooLong(number)
}

fn is_skipped(line: &[u8]) -> bool
    ensures { result ≡ is_skipped line.now }
{
    match line {
        [] => true,
        [first, ..] => *first == b'#',
    }
}

fn read_record(number: u64, line: &[u8]) -> Result<Option<(&[u8], u64)>, DataFault>
    ensures says { seen_line result ≡ says_record number line.now }
    ensures key { IfOk result (λ said. IfSome said (λ r. IsKey r.0.now)) }
    ensures place { IfOk result (λ said. IfSome said (λ r. StandsAt line.now r.0.now)) }
    ensures line { IfErr result (λ flaw. NamesLine flaw number) }
    ensures no_failure { IsErrOf result DataFault.Failed → ⊥ }
{
    if !line.starts_with(b"C '") {
        return Err(DataFault::BadRecord(number));
    }
    let Some((key, rest)) = split_quote(&line[3..]) else {
        return Err(DataFault::BadRecord(number));
    };
    if !is_key(key) {
        return Err(DataFault::BadRecord(number));
    }
    match read_count(rest) {
        Some(count) => Ok(Some((key, count))),
        None => Err(DataFault::BadCount(number)),
    }
}

/// What stands before and after the last quote.
fn split_quote(text: &[u8]) -> Option<(&[u8], &[u8])>
    ensures parts { seen_parts result ≡ at_last_quote text.now }
    ensures front { IfSome result (λ p. IsFront text.now p.0.now) }
{
    let at = last_quote(text)?;
    Some((&text[..at], &text[at + 1..]))
}

fn last_quote(text: &[u8]) -> Option<usize>
    ensures { IsLastByte (is_byte 39) text.now result }
{
    memrchr(b'\'', text)
}

fn read_count(text: &[u8]) -> Option<u64>
    ensures { result ≡ count_after text.now }
{
    match text {
        [b' ', digits @ ..] => read_dec(digits, u64::MAX),
        _ => None,
    }
}
