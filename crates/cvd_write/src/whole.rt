ghost use Rattle.std.specs.Prelude.{◌≡◌, ◌≤◌, IfOk, IfErr, length};
ghost use Rattle.cov_types.specs.Limits.{most};
ghost use Rattle.cov_types.specs.declared.limit.LimitName.TheVariants.{CvdBytes};
ghost use Rattle.cvd_text.specs.Spelling.{Cvd, spelling};
ghost use Rattle.cvd_write.specs.Writing.{Refuses, Writes, back_text, design_text, front_text, variables_text};
ghost use Rattle.design_meaning.specs.Valid.{IsValid};

use crate::fault::WriteFault;
use crate::section::{inputs, line, outputs, points, processes, toggles, vars};
use crate::step::numbered_line;
use crate::writer::Writer;
use cov_types::ByteText;
use design_tree::{Design, Instrumented};
use std::alloc::Global;

/// The text of a valid design.
pub fn encode(alloc: Global, design: &Instrumented) -> Result<ByteText, WriteFault>
    requires valid { IsValid design.now }
    ensures spells { IfOk result (λ text. Cvd design.now text) }
    ensures short { IfOk result (λ text. length text ≤ most CvdBytes) }
    ensures refuses { IfErr result (λ fault. Refuses fault (spelling design.now)) }
{
    written(alloc, design)
}

fn written(alloc: Global, design: &Instrumented) -> Result<ByteText, WriteFault>
    ensures spells { IfOk result (λ text. text ≡ design_text design.now) }
    ensures short { IfOk result (λ text. length text ≤ most CvdBytes) }
    ensures refuses { IfErr result (λ fault. Refuses fault (design_text design.now)) }
{
    let mut out = Writer::new(alloc);
    whole(&mut out, design)?;
    out.within()?;
    Ok(out.into_text())
}

fn whole(out: &mut Writer, design: &Instrumented) -> Result<(), WriteFault>
    ensures { Writes out.old (design_text design.now) result out.new }
{
    front(out, design.counters, &design.design)?;
    back(out, design)
}

/// What stands before the processes.
fn front(out: &mut Writer, counters: u32, design: &Design) -> Result<(), WriteFault>
    ensures { Writes out.old (front_text counters design.now) result out.new }
{
    line(out, b"CVD 1")?;
    numbered_line(out, b"counters", counters as u64)?;
    variables(out, design)
}

/// The variables, inputs and outputs.
fn variables(out: &mut Writer, design: &Design) -> Result<(), WriteFault>
    ensures { Writes out.old (variables_text design.now) result out.new }
{
    vars(out, design.vars.as_slice())?;
    inputs(out, design.inputs.as_slice())?;
    outputs(out, design.outputs.as_slice())
}

/// The processes, and what stands behind them.
fn back(out: &mut Writer, design: &Instrumented) -> Result<(), WriteFault>
    ensures { Writes out.old (back_text design.now) result out.new }
{
    processes(out, design.design.processes.as_slice())?;
    toggles(out, design.toggles.as_slice())?;
    points(out, design.points.as_slice())?;
    line(out, b"end")?;
    Ok(())
}
