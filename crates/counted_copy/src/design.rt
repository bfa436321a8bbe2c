ghost use Rattle.std.specs.Prelude.{◌≡◌, [], IfOk, length};
ghost use Rattle.counted_circuit.specs.CountedDesign.{IsCountedDesign};
ghost use Rattle.counted_circuit.specs.Inserted.{AreCountedProcesses};
ghost use Rattle.counted_copy.specs.Carried.{carried_by};

use crate::process::counted_process;
use cov_types::{NoMemory, Rows};
use design_copies::{copy_inputs, copy_numbers, copy_variables};
use design_tree::{Design, Process};
use std::alloc::Global;

/// Copies of processes with counts for their arms.
fn counted_processes(
    alloc: Global,
    processes: &[Process],
    carriers: &[Option<u32>],
) -> Result<Rows<Process>, NoMemory>
    requires { AreCountedProcesses (λ k. []) 0 processes.now processes.now (length carriers.now) }
    ensures { IfOk result (λ copies. AreCountedProcesses (carried_by carriers.now) 0 processes.now copies (length carriers.now)) }
{
    let mut copies = Rows::new(alloc);
    let mut next = 0;
    for process in processes {
        let counted = counted_process(alloc, process, next, carriers)?;
        next = counted.next;
        copies.push(counted.process)?;
    }
    Ok(copies)
}

/// A copy of a design without counts, with a count at the head of each arm that carries a counter.
///
/// `carriers` has a place for each arm, in the order of the arms: first the body of a process, then the arms in it, each with
/// those inside it. The arm of an assignment gets no count.
pub fn counted_copy(
    alloc: Global,
    design: &Design,
    carriers: &[Option<u32>],
) -> Result<Design, NoMemory>
    requires { IsCountedDesign (λ k. []) design.now design.now (length carriers.now) }
    ensures { IfOk result (λ counted. IsCountedDesign (carried_by carriers.now) design.now counted (length carriers.now)) }
{
    let vars = copy_variables(alloc, design.vars.as_slice())?;
    let inputs = copy_inputs(alloc, design.inputs.as_slice())?;
    let outputs = copy_numbers(alloc, design.outputs.as_slice())?;
    let processes = counted_processes(alloc, design.processes.as_slice(), carriers)?;
    Ok(Design {
        vars,
        inputs,
        outputs,
        processes,
    })
}
