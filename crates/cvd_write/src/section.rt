ghost use Rattle.std.specs.Prelude.{◌≡◌, [], ◌∷◌, ◌++◌, codes, flat_map, OnOk};
ghost use Rattle.cvd_text.specs.Tokens.{counters_text, decimal_text};
ghost use Rattle.cvd_write.specs.Writing.{Writes, input_row, output_row, point_row, process_text, row, section, toggle_row, var_row};

use crate::fault::WriteFault;
use crate::step::{block, numbered_line};
use crate::word::{kind_word, process_word};
use crate::writer::Writer;
use design_tree::{Input, PointRow, Process, ToggleEntry, Var};
use std::alloc::AllocError;

pub(crate) fn vars(out: &mut Writer, things: &[Var]) -> Result<(), WriteFault>
    ensures { Writes out.old (section (codes "vars") var_row things.now) result out.new }
{
    numbered_line(out, b"vars", things.len() as u64)?;
    all_vars(out, things)
}

fn all_vars(out: &mut Writer, things: &[Var]) -> Result<(), WriteFault>
    ensures { Writes out.old (flat_map var_row things.now) result out.new }
{
    for one in things {
        var(out, one)?;
        out.within()?;
    }
    Ok(())
}

fn var(out: &mut Writer, one: &Var) -> Result<(), AllocError>
    ensures { OnOk result (out.new ≡ out.old ++ var_row one.now) }
{
    out.decimal(one.width as u64)?;
    out.number(one.words as u64)?;
    out.hex(one.start)?;
    out.word(kind_word(one.kind))?;
    out.end()
}

pub(crate) fn inputs(out: &mut Writer, things: &[Input]) -> Result<(), WriteFault>
    ensures { Writes out.old (section (codes "inputs") input_row things.now) result out.new }
{
    numbered_line(out, b"inputs", things.len() as u64)?;
    all_inputs(out, things)
}

fn all_inputs(out: &mut Writer, things: &[Input]) -> Result<(), WriteFault>
    ensures { Writes out.old (flat_map input_row things.now) result out.new }
{
    for one in things {
        input(out, one)?;
        out.within()?;
    }
    Ok(())
}

fn input(out: &mut Writer, one: &Input) -> Result<(), AllocError>
    ensures { OnOk result (out.new ≡ out.old ++ input_row one.now) }
{
    out.decimal(one.var as u64)?;
    out.word(one.name.as_slice())?;
    out.end()
}

pub(crate) fn outputs(out: &mut Writer, things: &[u32]) -> Result<(), WriteFault>
    ensures { Writes out.old (section (codes "outputs") output_row things.now) result out.new }
{
    numbered_line(out, b"outputs", things.len() as u64)?;
    all_outputs(out, things)
}

fn all_outputs(out: &mut Writer, things: &[u32]) -> Result<(), WriteFault>
    ensures { Writes out.old (flat_map output_row things.now) result out.new }
{
    for one in things {
        output(out, *one)?;
        out.within()?;
    }
    Ok(())
}

fn output(out: &mut Writer, var: u32) -> Result<(), AllocError>
    ensures { OnOk result (out.new ≡ out.old ++ output_row var) }
{
    out.decimal(var as u64)?;
    out.end()
}

pub(crate) fn processes(out: &mut Writer, things: &[Process]) -> Result<(), WriteFault>
    ensures { Writes out.old (section (codes "processes") process_text things.now) result out.new }
{
    numbered_line(out, b"processes", things.len() as u64)?;
    all_processes(out, things)
}

fn all_processes(out: &mut Writer, things: &[Process]) -> Result<(), WriteFault>
    ensures { Writes out.old (flat_map process_text things.now) result out.new }
{
    for one in things {
        process(out, one)?;
        out.within()?;
    }
    Ok(())
}

fn process(out: &mut Writer, one: &Process) -> Result<(), AllocError>
    ensures { OnOk result (out.new ≡ out.old ++ process_text one.now) }
{
    line(out, process_word(one.kind))?;
    block(out, one.body.as_slice())
}

/// A line of one word.
pub(crate) fn line(out: &mut Writer, name: &[u8]) -> Result<(), AllocError>
    ensures { OnOk result (out.new ≡ out.old ++ row name.now []) }
{
    out.put(name)?;
    out.end()
}

pub(crate) fn toggles(out: &mut Writer, things: &[ToggleEntry]) -> Result<(), WriteFault>
    ensures { Writes out.old (section (codes "toggles") toggle_row things.now) result out.new }
{
    numbered_line(out, b"toggles", things.len() as u64)?;
    all_toggles(out, things)
}

fn all_toggles(out: &mut Writer, things: &[ToggleEntry]) -> Result<(), WriteFault>
    ensures { Writes out.old (flat_map toggle_row things.now) result out.new }
{
    for one in things {
        toggle(out, one)?;
        out.within()?;
    }
    Ok(())
}

fn toggle(out: &mut Writer, one: &ToggleEntry) -> Result<(), AllocError>
    ensures { OnOk result (out.new ≡ out.old ++ toggle_row one.now) }
{
    out.decimal(one.var as u64)?;
    out.number(one.word as u64)?;
    out.number(one.bit as u64)?;
    out.number(one.counter as u64)?;
    out.end()
}

pub(crate) fn points(out: &mut Writer, things: &[PointRow]) -> Result<(), WriteFault>
    ensures { Writes out.old (section (codes "points") point_row things.now) result out.new }
{
    numbered_line(out, b"points", things.len() as u64)?;
    all_points(out, things)
}

fn all_points(out: &mut Writer, things: &[PointRow]) -> Result<(), WriteFault>
    ensures { Writes out.old (flat_map point_row things.now) result out.new }
{
    for one in things {
        point(out, one)?;
        out.within()?;
    }
    Ok(())
}

fn point(out: &mut Writer, one: &PointRow) -> Result<(), AllocError>
    ensures { OnOk result (out.new ≡ out.old ++ point_row one.now) }
{
    counters(out, one.plus.as_slice())?;
    out.put(b" ")?;
    counters(out, one.minus.as_slice())?;
    out.word(one.key.as_slice())?;
    out.end()
}

/// A list of counters, joined by commas, or `-`.
fn counters(out: &mut Writer, list: &[u32]) -> Result<(), AllocError>
    ensures { OnOk result (out.new ≡ out.old ++ counters_text list.now) }
{
    if list.is_empty() {
        return out.put(b"-");
    }
    out.decimal(list[0] as u64)?;
    more_counters(out, &list[1..])
}

/// Further counters, each behind a comma.
fn more_counters(out: &mut Writer, list: &[u32]) -> Result<(), AllocError>
    ensures { OnOk result (out.new ≡ out.old ++ flat_map (λ n. 44 ∷ decimal_text n) list.now) }
{
    for one in list {
        further_counter(out, *one)?;
    }
    Ok(())
}

fn further_counter(out: &mut Writer, counter: u32) -> Result<(), AllocError>
    ensures { OnOk result (out.new ≡ out.old ++ (44 ∷ decimal_text counter)) }
{
    out.put(b",")?;
    out.decimal(counter as u64)
}
