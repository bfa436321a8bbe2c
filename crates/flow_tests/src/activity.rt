//! Whether a process has to run again once a bit has changed.

ghost use Rattle.std.specs.Prelude.{◌<◌, length};
ghost use Rattle.design_meaning.specs.States.{IsStateOf};
ghost use Rattle.design_meaning.specs.Valid.{IsValidDesign};
ghost use Rattle.flow_order.specs.Orders.{AreReadsOf};

use crate::fault::told;
use anyhow::anyhow;
use bit_values::Bits;
use cvd_file::decode;
use design_rows::text_of;
use design_state::{Position, State, Update};
use design_tree::Design;
use flow_check::{Order, active};
use std::alloc::Global;

/// A process, and a bit.
#[derive(Clone, Copy)]
struct Change {
    process: u32,
    var: u32,
    word: u32,
    bit: u32,
}

/// Writes a part of a state.
fn write(design: &Design, state: &mut State, part: &Update)
    requires stands { part.now.var < length design.now.vars }
    requires of_design { IsStateOf design.now state.old }
    ensures { IsStateOf design.now state.new }
{
    state.write_part(part);
}

/// Sets the bit in a state.
fn set_bit(design: &Design, state: &mut State, change: &Change)
    requires stands { change.now.var < length design.now.vars }
    requires of_design { IsStateOf design.now state.old }
    ensures { IsStateOf design.now state.new }
{
    let part = Update {
        var: change.var,
        word: Position::At(u128::from(change.word)),
        low: Position::At(u128::from(change.bit)),
        value: Bits::new(1, 1),
    };
    write(design, state, &part);
}

/// Whether a process of an order is active.
fn is_active(design: &Design, order: &Order, p: u32, now: &State, before: &State) -> bool
    requires reads { AreReadsOf design.now order.now.reads }
    requires process { p < length design.now.processes }
    requires now { IsStateOf design.now now.now }
    requires before { IsStateOf design.now before.now }
{
    active(order, p, now, before)
}

/// What a state of zeros with this bit set makes of a process, against one of zeros alone.
fn compared(
    alloc: Global,
    design: &Design,
    order: &Order,
    change: &Change,
) -> anyhow::Result<&'static str>
    requires valid { IsValidDesign design.now }
    requires reads { AreReadsOf design.now order.now.reads }
{
    if change.var as usize >= design.vars.len()
        || change.process as usize >= design.processes.len()
    {
        return Err(anyhow!("no such process or variable"));
    }
    let before = State::new(alloc, design)?;
    let mut now = State::new(alloc, design)?;
    set_bit(design, &mut now, change);
    if is_active(design, order, change.process, &now, &before) {
        Ok("active")
    } else {
        Ok("idle")
    }
}

/// The next number of a row.
fn number(words: &[&str], at: usize) -> anyhow::Result<u32> {
    match words.get(at) {
        Some(word) => Ok(word.parse::<u32>()?),
        None => Err(anyhow!("no process and bit")),
    }
}

/// A row of a process, the variable, the word and the number of a bit, and a design whose registers start with zeros.
pub(crate) fn activity(alloc: Global, row: &str) -> anyhow::Result<String> {
    let (head, design) = row.split_once("CVD").ok_or(anyhow!("no design"))?;
    let words: Vec<&str> = head.split_whitespace().collect(alloc)?;
    let change = Change {
        process: number(words.as_slice(), 1)?,
        var: number(words.as_slice(), 2)?,
        word: number(words.as_slice(), 3)?,
        bit: number(words.as_slice(), 4)?,
    };
    let whole = format!(in alloc; "CVD{design}")?;
    let text = text_of(alloc, whole.as_str())?;
    match decode(alloc, text.as_slice()) {
        Ok((x, order)) => {
            let told = compared(alloc, &x.design, &order, &change)?;
            Ok(String::from_str(alloc, told)?)
        }
        Err(fault) => told(alloc, fault),
    }
}
