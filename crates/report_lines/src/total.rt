ghost use Rattle.std.specs.Prelude.{◌≡◌, ◌+◌, ◌≤◌, ◌++◌, ◌<◌, length, IfOk, OnOk};
ghost use Rattle.cov_dat.specs.Merging.{Counts};
ghost use Rattle.report_lines.specs.Walks.{reached_in};
ghost use Rattle.report_text.specs.Tables.{seen_tables, tables_of};
ghost use Rattle.report_text.specs.Totals.{hundredths as share, total_line, total_text as total_of, two_decimals};

use crate::number::push_decimal;
use cov_port::{ByteText, NoMemory};
use report_text::{CountedLine, FileTable};
use std::alloc::{AllocError, Global};

/// The total line: how many lines with items aren't low.
pub fn total_text(
    alloc: Global,
    tables: &[FileTable<'_>],
    minimum: u64,
) -> Result<ByteText, NoMemory>
    ensures { (counts : Counts) → seen_tables tables.now ≡ tables_of counts → IfOk result (λ text. text ≡ total_of minimum counts) }
{
    let mut part = 0;
    let mut whole = 0;
    'files: for table in tables {
        part = added(part, reached(&table.lines, minimum))?;
        whole = added(whole, table.lines.len())?;
    }
    let mut text = Vec::new(alloc);
    push_total(&mut text, part, whole)?;
    Ok(ByteText::from_vec(text))
}

/// The sum. More lines than it can tell fit into no memory.
fn added(sum: u64, more: usize) -> Result<u64, NoMemory>
    ensures { IfOk result (λ all. all ≡ sum + more) }
{
    match sum.checked_add(more as u64) {
        Some(all) => Ok(all),
        None => Err(NoMemory),
    }
}

/// How many lines aren't low.
fn reached(lines: &[CountedLine], minimum: u64) -> usize
    ensures value { result ≡ reached_in minimum lines.now }
    ensures within { result ≤ length lines.now }
{
    let mut reached = 0;
    'lines: for line in lines {
        if line.count >= minimum {
            reached += 1;
        }
    }
    reached
}

fn push_total(text: &mut Vec<u8>, part: u64, whole: u64) -> Result<(), AllocError>
    requires { part ≤ whole }
    ensures { OnOk result (text.new.items ≡ text.old.items ++ total_line part whole) }
{
    text.extend_from_slice(b"Total coverage (")?;
    push_decimal(text, part)?;
    text.extend_from_slice(b"/")?;
    push_decimal(text, whole)?;
    text.extend_from_slice(b") ")?;
    push_two_decimals(text, hundredths(part, whole))?;
    text.extend_from_slice(b"%\n")?;
    Ok(())
}

/// Hundredths of a per cent of a part of a whole, cut.
fn hundredths(part: u64, whole: u64) -> u64
    requires { part ≤ whole }
    ensures { result ≡ share part whole }
{
    if whole == 0 {
        return 0;
    }
    (u128::from(part) * 10_000 / u128::from(whole)) as u64
}

fn push_two_decimals(text: &mut Vec<u8>, number: u64) -> Result<(), AllocError>
    ensures { OnOk result (text.new.items ≡ text.old.items ++ two_decimals number) }
{
    push_decimal(text, number / 100)?;
    text.extend_from_slice(b".")?;
    push_decimal(text, number % 100 / 10)?;
    push_decimal(text, number % 10)
}
