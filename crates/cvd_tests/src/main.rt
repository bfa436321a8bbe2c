//! Reads texts, one a line, and prints what is wrong with each as a design file, or whether its design has that text. A line that begins with
//! `prefixes` or `bytes` has a text that is tried in parts, or with each byte replaced: printed is how often each answer comes.
#![tactic(auto)]

mod changes;
mod row;
mod tally;

use changes::{prefixes, replaced};
use design_rows::text_of;
use row::answer;
use std::alloc::Global;
use std::io::{BufRead, BufReader};

/// What is printed of a row.
fn told(alloc: Global, row: &str) -> anyhow::Result<String> {
    if let Some(rest) = row.strip_prefix("prefixes ") {
        return prefixes(alloc, text_of(alloc, rest)?.as_slice());
    }
    if let Some(rest) = row.strip_prefix("bytes ") {
        return replaced(alloc, text_of(alloc, rest)?);
    }
    Ok(answer(alloc, text_of(alloc, row)?.as_slice())?)
}

fn main(rt: HostRuntime) -> anyhow::Result<()> {
    let alloc = rt.alloc();
    for line in BufReader::new(alloc, rt.reader())?.lines(alloc) {
        let line = line?;
        if line.as_str().starts_with("#") {
            continue;
        }
        println!(rt; "{}", told(alloc, line.as_str())?)?;
    }
    Ok(())
}
