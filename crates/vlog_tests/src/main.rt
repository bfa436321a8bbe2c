//! Follows a script of Verilog texts, and prints what each is read as: its tokens, its tree, or where it is refused.
#![tactic(auto)]

mod script;
mod token_list;
mod tree;

use script::Script;
use std::io::{BufRead, BufReader};

fn main(rt: HostRuntime) -> anyhow::Result<()> {
    let alloc = rt.alloc();
    let mut script = Script::new(alloc);
    for line in BufReader::new(alloc, rt.reader())?.lines(alloc) {
        if let Some(told) = script.follow(line?.as_str())? {
            println!(rt; "{told}")?;
        }
    }
    Ok(())
}
