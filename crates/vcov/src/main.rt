//! Verilog coverage: merges, filters, ranks and reports coverage data.
#![tactic(auto)]

use cov_program::run_program;
use std::process::ExitCode;

fn main(rt: HostRuntime) -> ExitCode {
    ExitCode::from(run_program(&rt, rt.stdout(), rt.stderr()).code())
}
