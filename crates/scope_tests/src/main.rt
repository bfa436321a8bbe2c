//! Follows a script of Verilog designs, and prints the scopes of each, or why it has none.
#![tactic(auto)]

mod design;
mod script;
mod told;

use script::Script;
use std::io::{BufRead, BufReader};

fn main(rt: HostRuntime) -> anyhow::Result<()> {
    let alloc = rt.alloc();
    let mut script = Script::new(alloc);
    for line in BufReader::new(alloc, rt.reader())?.lines(alloc) {
        if let Some(told) = script.follow(line?.as_str())? {
            println!(rt; "{told}")?;
        }
    }
    Ok(())
}
