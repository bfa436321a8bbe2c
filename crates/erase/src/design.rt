ghost use Rattle.std.specs.Prelude.{◌≡◌, ℕ, IfOk, List, map};
ghost use Rattle.design_tree.specs.declared.design.Design.{Design};
ghost use Rattle.counted_circuit.specs.CountedDesign.{IsCountedDesign};
ghost use Rattle.counted_circuit.specs.Erased.{erased_design, erased_process};

use crate::steps::steps_left;
use counted_laws::erasing;
use cov_types::{NoMemory, Rows};
use design_copies::{copy_inputs, copy_numbers, copy_variables};
use design_tree::{Design, Instrumented, Process};
use std::alloc::Global;

/// What is left of processes.
fn processes_left(alloc: Global, processes: &[Process]) -> Result<Rows<Process>, NoMemory>
    ensures { IfOk result (λ left. left ≡ map erased_process processes.now) }
{
    let mut left = Rows::new(alloc);
    for process in processes {
        let body = steps_left(alloc, process.body.as_slice())?;
        left.push(Process {
            kind: process.kind,
            body,
        })?;
    }
    Ok(left)
}

/// A copy of the design without its counts.
///
/// Where the counts were put in for the arms of a design without any, it is that design. It goes as deep as the blocks and
/// expressions of the design.
pub fn erase(alloc: Global, design: &Instrumented) -> Result<Design, NoMemory>
    ensures erases { IfOk result (λ plain. plain ≡ erased_design design.now.design) }
    ensures gives_back { IfOk result (λ plain. (carried : ℕ → List ℕ) (d : Design) (arms : ℕ) → IsCountedDesign carried d design.now.design arms → plain ≡ d) }
{
    erasing();
    let design = &design.design;
    let vars = copy_variables(alloc, design.vars.as_slice())?;
    let inputs = copy_inputs(alloc, design.inputs.as_slice())?;
    let outputs = copy_numbers(alloc, design.outputs.as_slice())?;
    let processes = processes_left(alloc, design.processes.as_slice())?;
    Ok(Design {
        vars,
        inputs,
        outputs,
        processes,
    })
}
