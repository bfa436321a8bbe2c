ghost use Rattle.std.specs.Prelude.{◌≡◌, ◌≤◌, ◌+◌, Bool, true, IfErr, OnOk};
ghost use Rattle.cov_port.specs.Lines.{Line, bytes_of, is_long};
ghost use Rattle.stim_lines.specs.Fields.{is_note, says, refused};
ghost use Rattle.stim_lines.specs.Reading.{NamesLine, is_of_text, seen_said};

use crate::fault::StimFault;
use cov_types::LimitName;

/// The greatest number of bytes of a stimulus.
pub const MOST_BYTES: u64 = 1_099_511_627_776;

/// The greatest number of bytes of a line without its line feed.
const MOST_LINE: usize = 65_535;

/// Whether the line with this number speaks, that is, isn't skipped. The text has `bytes` bytes up to the line's end.
pub fn read_line(number: u64, bytes: u64, line: &[u8]) -> Result<bool, StimFault>
    ensures says { (ended : Bool) → seen_said number line.now result ≡ says bytes number (line.now, ended) }
    ensures within { OnOk result (bytes ≤ 1099511627776) }
    ensures line { IfErr result (λ flaw. NamesLine flaw number) }
    ensures of_text { IfErr result (λ flaw. is_of_text flaw ≡ true) }
{
    if bytes > MOST_BYTES {
        return Err(StimFault::Limit(LimitName::StimulusBytes));
    }
    if line.len() > MOST_LINE {
        return Err(StimFault::LineTooLong(number));
    }
    Ok(!is_note(line))
}

/// Why a line that is too long is refused, behind this many bytes.
pub fn long_line(number: u64, before: u64) -> StimFault
    requires { before ≤ 1099511627776 }
    ensures says { (l : Line) → is_long l ≡ true → says (before + bytes_of l) number l ≡ refused result }
    ensures line { NamesLine result number }
    ensures of_text { is_of_text result ≡ true }
{
    if before + 65_536 > MOST_BYTES {
        return StimFault::Limit(LimitName::StimulusBytes);
    }
    StimFault::LineTooLong(number)
}

/// Whether a line is skipped.
fn is_note(line: &[u8]) -> bool
    ensures { result ≡ is_note line.now }
{
    match line {
        [] => false,
        [first, ..] => *first == b'#',
    }
}
