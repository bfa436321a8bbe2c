ghost use Rattle.std.specs.Prelude.{◌≡◌, ◌≤◌, ◌<◌, [], length, IfOk, IfSome, OnOk, ◌++◌};
ghost use Rattle.cov_types.specs.LineLists.{lines_text, range_text};
ghost use Rattle.cov_port.specs.LineReading.{line_number, run_between, run_of, runs_of, with_run};

use crate::bytes::place_of;
use crate::dec::read_dec;
use cov_types::{ByteText, LineRange, NoMemory, Rows};
use itoa::Buffer;
use std::alloc::Global;

/// The greatest number of a line.
const MOST_LINE_NUMBER: u64 = 4_194_304;

/// The runs of a line list, as they are written; nothing where the text is none.
pub fn read_lines(alloc: Global, text: &[u8]) -> Result<Option<Rows<LineRange>>, NoMemory>
    ensures { IfOk result (λ lines. lines ≡ runs_of text.now) }
{
    let mut lines = Rows::new(alloc);
    let mut rest = text;
    'runs: loop {
        let end = place_of(b',', rest);
        let Some(run) = read_run(&rest[..end]) else {
            return Ok(None);
        };
        lines.push(run)?;
        if end == rest.len() {
            return Ok(Some(lines));
        }
        rest = &rest[end + 1..];
    }
}

/// One number, or two with `-` between.
fn read_run(text: &[u8]) -> Option<LineRange>
    ensures { result ≡ run_of text.now }
{
    let end = place_of(b'-', text);
    if end == text.len() {
        let number = read_number(text);
        return run_between(number, number);
    }
    run_between(read_number(&text[..end]), read_number(&text[end + 1..]))
}

/// The run from one number to the other, if both are there and it doesn't descend.
fn run_between(from: Option<u32>, to: Option<u32>) -> Option<LineRange>
    ensures { result ≡ run_between from to }
{
    let from = from?;
    let to = to?;
    if from <= to {
        Some(LineRange { from, to })
    } else {
        None
    }
}

fn read_number(text: &[u8]) -> Option<u32>
    ensures { result ≡ line_number text.now }
{
    match read_dec(text, MOST_LINE_NUMBER) {
        Some(number) if number >= 1 => Some(number as u32),
        _ => None,
    }
}

/// The text of a line list.
pub fn line_text(alloc: Global, lines: &Rows<LineRange>) -> Result<ByteText, NoMemory>
    ensures { IfOk result (λ text. text ≡ lines_text lines.now) }
{
    let mut text = ByteText::new(alloc);
    let mut first = true;
    for range in lines.as_slice() {
        push_run(&mut text, first, *range)?;
        first = false;
    }
    Ok(text)
}

/// Puts a run at the end, with a comma before it where it isn't the first.
fn push_run(text: &mut ByteText, first: bool, range: LineRange) -> Result<(), NoMemory>
    ensures { OnOk result (text.new ≡ with_run text.old first range) }
{
    if !first {
        text.append(b",")?;
    }
    push_range(text, range)
}

fn push_range(text: &mut ByteText, range: LineRange) -> Result<(), NoMemory>
    ensures { OnOk result (text.new ≡ text.old ++ range_text range) }
{
    let mut buffer = Buffer::new();
    text.append(buffer.format(range.from).as_bytes())?;
    if range.from == range.to {
        return Ok(());
    }
    text.append(b"-")?;
    text.append(buffer.format(range.to).as_bytes())
}
