ghost use Rattle.std.specs.Prelude.{◌≡◌, ◌+◌, ◌≤◌, ◌<◌, [], ◌∷◌, IfOk, List, length};
ghost use Rattle.cov_types.specs.declared.kind.ProcessKind.TheVariants as kind;
ghost use Rattle.design_tree.specs.declared.step.Step.{Step};
ghost use Rattle.counted_circuit.specs.Circuits.{arms_in};
ghost use Rattle.counted_circuit.specs.Inserted.{IsCountedProcess, counts};
ghost use Rattle.counted_copy.specs.Carried.{carried_by};
ghost use Rattle.counted_copy.specs.Processes.{AreTestsWith, IsTest, IsTestWith, IsUncounted};

use crate::steps::{counted_block, counted_step, counts_of};
use cov_types::{NoMemory, ProcessKind};
use design_copies::copy_expression;
use design_tree::{Process, Step};
use sqlite_items::Items;
use std::alloc::Global;

/// A process with counts, and the number of the arm after its last.
#[derive(Drop)]
pub(crate) struct CountedProcess {
    pub(crate) process: Process,
    pub(crate) next: usize,
}

/// A copy of the body of an assignment, which has no counts.
fn assignment_body(
    alloc: Global,
    process: &Process,
    arm: usize,
    carriers: &[Option<u32>],
) -> Result<Items<Step>, NoMemory>
    requires kind { process.now.kind ≡ kind.Assign }
    requires uncounted { IsUncounted process.now }
    requires room { arm < length carriers.now }
    ensures { IfOk result (λ body. body ≡ process.now.body) }
{
    let mut body = Items::new(alloc);
    for step in process.body.as_slice() {
        let copy = counted_step(alloc, step, arm, carriers)?;
        body.push(copy.step)?;
    }
    Ok(body)
}

/// A copy of the test of a cover, with the counts of what its yes arm carries.
fn counted_test(
    alloc: Global,
    step: &Step,
    arm: usize,
    carriers: &[Option<u32>],
) -> Result<Step, NoMemory>
    requires test { IsTest step.now }
    requires room { arm < length carriers.now }
    ensures { IfOk result (λ copy. IsTestWith (counts (carried_by carriers.now arm)) step.now copy) }
{
    match step {
        Step::If {
            test,
            yes: _,
            no: _,
        } => {
            let test = copy_expression(alloc, test)?;
            let yes = counts_of(alloc, carriers, arm)?;
            let no = Items::new(alloc);
            Ok(Step::If { test, yes, no })
        }
        _ => unreachable!(),
    }
}

/// A copy of the body of a cover, whose one arm is the yes arm of its test.
fn cover_body(
    alloc: Global,
    process: &Process,
    arm: usize,
    carriers: &[Option<u32>],
) -> Result<Items<Step>, NoMemory>
    requires kind { process.now.kind ≡ kind.Cover }
    requires uncounted { IsUncounted process.now }
    requires room { arm < length carriers.now }
    ensures { IfOk result (λ body. AreTestsWith (counts (carried_by carriers.now arm)) process.now.body body) }
{
    let mut body = Items::new(alloc);
    for step in process.body.as_slice() {
        body.push(counted_test(alloc, step, arm, carriers)?)?;
    }
    Ok(body)
}

/// A copy of a process whose body is an arm, with counts for its arms.
fn body_process(
    alloc: Global,
    process: &Process,
    arm: usize,
    carriers: &[Option<u32>],
) -> Result<CountedProcess, NoMemory>
    requires assigns { process.now.kind ≡ kind.Assign → ⊥ }
    requires covers { process.now.kind ≡ kind.Cover → ⊥ }
    requires uncounted { IsUncounted process.now }
    requires room { arm + arms_in process.now.kind process.now.body ≤ length carriers.now }
    ensures { IfOk result (λ r. IsCountedProcess (carried_by carriers.now) arm process.now r.process r.next) }
{
    let block = counted_block(alloc, process.body.as_slice(), arm, carriers)?;
    let next = block.next;
    let process = Process {
        kind: process.kind,
        body: block.steps,
    };
    Ok(CountedProcess { process, next })
}

/// A copy of a process with counts for its arms, the first of which has this number.
pub(crate) fn counted_process(
    alloc: Global,
    process: &Process,
    arm: usize,
    carriers: &[Option<u32>],
) -> Result<CountedProcess, NoMemory>
    requires uncounted { IsUncounted process.now }
    requires room { arm + arms_in process.now.kind process.now.body ≤ length carriers.now }
    ensures { IfOk result (λ r. IsCountedProcess (carried_by carriers.now) arm process.now r.process r.next) }
{
    let kind = process.kind;
    match kind {
        ProcessKind::Assign => {
            let body = assignment_body(alloc, process, arm, carriers)?;
            Ok(CountedProcess {
                process: Process { kind, body },
                next: arm + 1,
            })
        }
        ProcessKind::Cover => {
            let body = cover_body(alloc, process, arm, carriers)?;
            Ok(CountedProcess {
                process: Process { kind, body },
                next: arm + 1,
            })
        }
        _ => body_process(alloc, process, arm, carriers),
    }
}
