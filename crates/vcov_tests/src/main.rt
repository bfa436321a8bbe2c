//! Follows a script of worked cases over files in memory, and prints what the program leaves in each.
#![tactic(auto)]

mod case;
mod escape;
mod script;
mod setup;

use script::Script;
use std::io::{BufRead, BufReader};

fn main(rt: HostRuntime) -> anyhow::Result<()> {
    let alloc = rt.alloc();
    let mut script = Script::new(alloc);
    for line in BufReader::new(alloc, rt.reader())?.lines(alloc) {
        script.follow(&rt, line?.as_str())?;
    }
    Ok(())
}
