//! Reads design files, one a line, and prints whether each flows, or its first fault. A line that begins with `active` names a process and a
//! bit too: it prints whether a change of this bit makes the process run again.
#![tactic(auto)]

mod activity;
mod fault;
mod flow;

use activity::activity;
use flow::verdict;
use std::alloc::Global;
use std::io::{BufRead, BufReader};

/// What is printed of a row.
fn answer(alloc: Global, row: &str) -> anyhow::Result<String> {
    if row.starts_with("active ") {
        return activity(alloc, row);
    }
    verdict(alloc, row)
}

fn main(rt: HostRuntime) -> anyhow::Result<()> {
    let alloc = rt.alloc();
    for line in BufReader::new(alloc, rt.reader())?.lines(alloc) {
        let line = line?;
        if line.as_str().starts_with("#") {
            continue;
        }
        match answer(alloc, line.as_str()) {
            Ok(told) => println!(rt; "{told}")?,
            Err(fault) => println!(rt; "refused: {fault}")?,
        }
    }
    Ok(())
}
