ghost use Rattle.std.specs.Prelude.{map};
ghost use Rattle.scope_meaning.specs.Constants as constants;
ghost use Rattle.elab_constants.specs.Reads.{Reads, Gathers, Tells, read_select};

use crate::fault::ConstantFault;
use crate::joined::Joined;
use crate::names::Names;
use crate::node::{
    Parts, Reading, gather, read_binary, read_call, read_choice, read_join, read_name, read_number,
    read_part_of, read_repeat, read_unary, tell_one, tell_two,
};
use crate::sized::SizedTerm;
use std::alloc::Global;
use vlog_tree::{Expr, Select};

/// An expression as a constant: a term with its size and sign, or the first thing that is wrong in it.
///
/// Each node of the expression is read once, and what is valued by itself is valued once.
#[cycle(read)]
pub fn read<N: Names>(alloc: Global, names: &N, expr: &Expr) -> Result<SizedTerm, ConstantFault>
    ensures { Reads (constants.read (N.environment names.now) expr.now) result }
{
    match expr {
        Expr::Number {
            width,
            signed,
            value,
            free: _,
        } => {
            return read_number(*width, *signed, *value);
        }
        Expr::Name(name) => return read_name(names, name.as_slice()),
        Expr::Select { base, select } => {
            return read_part_of(
                read(alloc, names, base.get()),
                read_in_select(alloc, names, select),
            );
        }
        Expr::Unary { op, of } => return read_unary(alloc, *op, read(alloc, names, of.get())),
        Expr::Binary { op, left, right } => {
            return read_binary(
                alloc,
                *op,
                read(alloc, names, left.get()),
                read(alloc, names, right.get()),
            );
        }
        Expr::Choose { test, yes, no } => {
            return read_choice(
                read(alloc, names, test.get()),
                read(alloc, names, yes.get()),
                read(alloc, names, no.get()),
            );
        }
        Expr::Join(parts) => return read_join(read_parts(alloc, names, parts.as_slice())),
        Expr::Repeat { count, parts } => {
            return read_repeat(
                read(alloc, names, count.get()),
                read_parts(alloc, names, parts.as_slice()),
            );
        }
        Expr::Call { name, of } => return read_call(*name, read(alloc, names, of.get())),
    }
}

/// What is wrong in the expressions of a select.
#[cycle(read)]
fn read_in_select<N: Names>(alloc: Global, names: &N, select: &Select) -> Parts
    ensures { Tells (read_select (N.environment names.now) select.now).wrong result }
{
    match select {
        Select::At(at) => return tell_one(read(alloc, names, at.get())),
        Select::Between(high, low) => {
            return tell_two(
                read(alloc, names, high.get()),
                read(alloc, names, low.get()),
            );
        }
        Select::Up(from, width) => {
            return tell_two(
                read(alloc, names, from.get()),
                read(alloc, names, width.get()),
            );
        }
        Select::Down(from, width) => {
            return tell_two(
                read(alloc, names, from.get()),
                read(alloc, names, width.get()),
            );
        }
    }
}

/// The parts of a concatenation beside one another.
#[cycle(read)]
fn read_parts<N: Names>(alloc: Global, names: &N, parts: &[Expr]) -> Result<Joined, ConstantFault>
    ensures { Gathers (map (constants.read (N.environment names.now)) parts.now) result }
{
    let mut all = Ok(Joined::Empty);
    for part in parts {
        all = gather(all, read(alloc, names, part));
    }
    all
}
