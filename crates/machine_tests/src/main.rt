//! Runs designs, one a line behind a number of cycles, and prints of each what it prints, how it stands then, and its counters.
#![tactic(auto)]

mod run;

use run::told;
use std::io::{BufRead, BufReader};

fn main(rt: HostRuntime) -> anyhow::Result<()> {
    let alloc = rt.alloc();
    for line in BufReader::new(alloc, rt.reader())?.lines(alloc) {
        let line = line?;
        if line.as_str().starts_with("#") {
            continue;
        }
        match told(alloc, line.as_str()) {
            Ok(told) => println!(rt; "{told}")?,
            Err(fault) => println!(rt; "refused: {fault}")?,
        }
    }
    Ok(())
}
