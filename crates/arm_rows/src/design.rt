ghost use Rattle.std.specs.Prelude.{◌≡◌, IfOk, length};
ghost use Rattle.counted_circuit.specs.Balance.{process_forks};
ghost use Rattle.arm_rows.specs.Rows.{Adds, AreRowsOf, arms_of_process, sorts_of_process};

use crate::row::ArmRow;
use crate::steps::put_steps;
use cov_types::{NoMemory, ProcessKind, Rows};
use design_tree::{Design, Process};
use std::alloc::Global;

/// Puts the arms of a process behind those that are there.
fn put_process(process: &Process, rows: &mut Rows<ArmRow>) -> Result<(), NoMemory>
    ensures { IfOk result (λ _. Adds (arms_of_process process.now) (sorts_of_process process.now)
        (process_forks process.now.kind process.now.body (length rows.old)) rows.old rows.new) }
{
    let number = rows.len();
    match process.kind {
        ProcessKind::Assign => {
            rows.push(ArmRow::Assignment)?;
            return Ok(());
        }
        ProcessKind::Cover => {
            rows.push(ArmRow::Cover)?;
            return Ok(());
        }
        _ => {
            rows.push(ArmRow::Body)?;
            put_steps(process.body.as_slice(), number, rows)?;
            return Ok(());
        }
    }
}

/// The arms of a design, each with what it is, in the order of their numbers.
///
/// First comes the body of a process, then the arms in it, each with those inside it: the yes arm of an `if` before its no
/// arm, the arms of a `case` before its block for no match. An assignment and a cover have one arm each.
pub fn arm_rows(alloc: Global, design: &Design) -> Result<Rows<ArmRow>, NoMemory>
    ensures { IfOk result (λ rows. AreRowsOf design.now rows) }
{
    let mut rows = Rows::new(alloc);
    for process in design.processes.as_slice() {
        put_process(process, &mut rows)?;
    }
    Ok(rows)
}
