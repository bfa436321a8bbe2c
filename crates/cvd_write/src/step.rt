ghost use Rattle.std.specs.Prelude.{◌≡◌, [], ◌∷◌, ◌++◌, codes, flat_map, map, length, OnOk};
ghost use Rattle.cvd_text.specs.Expressions.{tokens_of};
ghost use Rattle.cvd_text.specs.Targets.{piece_tokens};
ghost use Rattle.cvd_text.specs.Tokens.{number};
ghost use Rattle.cvd_write.specs.Writing.{arm_text, block_text, item_row, row, step_text};

use crate::expression::expression;
use crate::target::{all_pieces, assignment};
use crate::writer::Writer;
use design_tree::{Piece, Step, StepArm, StepItem, Typed};
use std::alloc::AllocError;

/// A block of steps.
#[cycle(step)]
pub(crate) fn block(out: &mut Writer, steps: &[Step]) -> Result<(), AllocError>
    ensures { OnOk result (out.new ≡ out.old ++ block_text (map step_text steps.now)) }
{
    out.put(b"begin\n")?;
    all_steps(out, steps)?;
    out.put(b"end\n")
}

#[cycle(step)]
fn all_steps(out: &mut Writer, steps: &[Step]) -> Result<(), AllocError>
    ensures { OnOk result (out.new ≡ out.old ++ flat_map step_text steps.now) }
{
    for one in steps {
        step(out, one)?;
    }
    Ok(())
}

#[cycle(step)]
fn step(out: &mut Writer, one: &Step) -> Result<(), AllocError>
    ensures { OnOk result (out.new ≡ out.old ++ step_text one.now) }
{
    match one {
        Step::Set { targets, value } => {
            out.put(b"set")?;
            assignment(out, targets.as_slice(), value)
        }
        Step::Later { targets, value } => {
            out.put(b"later")?;
            assignment(out, targets.as_slice(), value)
        }
        Step::If { test, yes, no } => {
            test_line(out, test)?;
            block(out, yes.as_slice())?;
            block(out, no.as_slice())
        }
        Step::Case { on, arms, rest } => {
            case_line(out, arms.len(), on)?;
            all_arms(out, arms.as_slice())?;
            block(out, rest.as_slice())
        }
        Step::Show { pieces } => show_line(out, pieces.as_slice()),
        Step::Finish => out.put(b"finish\n"),
        Step::Stop => out.put(b"stop\n"),
        Step::Count { counter } => numbered_line(out, b"count", *counter as u64),
    }
}

#[cycle(step)]
fn all_arms(out: &mut Writer, arms: &[StepArm]) -> Result<(), AllocError>
    ensures { OnOk result (out.new ≡ out.old ++ flat_map arm_text arms.now) }
{
    for one in arms {
        arm(out, one)?;
    }
    Ok(())
}

#[cycle(step)]
fn arm(out: &mut Writer, one: &StepArm) -> Result<(), AllocError>
    ensures { OnOk result (out.new ≡ out.old ++ arm_text one.now) }
{
    numbered_line(out, b"arm", one.items.len() as u64)?;
    all_items(out, one.items.as_slice())?;
    block(out, one.body.as_slice())
}

fn all_items(out: &mut Writer, items: &[StepItem]) -> Result<(), AllocError>
    ensures { OnOk result (out.new ≡ out.old ++ flat_map item_row items.now) }
{
    for one in items {
        item(out, one)?;
    }
    Ok(())
}

fn item(out: &mut Writer, one: &StepItem) -> Result<(), AllocError>
    ensures { OnOk result (out.new ≡ out.old ++ item_row one.now) }
{
    out.put(b"item")?;
    out.hex(one.mask)?;
    expression(out, &one.value)?;
    out.end()
}

fn test_line(out: &mut Writer, test: &Typed) -> Result<(), AllocError>
    ensures { OnOk result (out.new ≡ out.old ++ row (codes "if") (tokens_of test.now)) }
{
    out.put(b"if")?;
    expression(out, test)?;
    out.end()
}

fn case_line(out: &mut Writer, arms: usize, on: &Typed) -> Result<(), AllocError>
    ensures { OnOk result (out.new ≡ out.old ++ row (codes "case") (number arms ∷ tokens_of on.now)) }
{
    out.put(b"case")?;
    out.number(arms as u64)?;
    expression(out, on)?;
    out.end()
}

fn show_line(out: &mut Writer, pieces: &[Piece]) -> Result<(), AllocError>
    ensures { OnOk result (out.new ≡ out.old ++ row (codes "show") (number (length pieces.now) ∷ flat_map piece_tokens pieces.now)) }
{
    out.put(b"show")?;
    out.number(pieces.len() as u64)?;
    all_pieces(out, pieces)?;
    out.end()
}

/// A line of a word and a number.
pub(crate) fn numbered_line(out: &mut Writer, name: &[u8], value: u64) -> Result<(), AllocError>
    ensures { OnOk result (out.new ≡ out.old ++ row name.now (number value ∷ [])) }
{
    out.put(name)?;
    out.number(value)?;
    out.end()
}
