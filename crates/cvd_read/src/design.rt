//! A whole design, from the first line to the last.

ghost use Rattle.std.specs.Prelude.{◌≡◌, ◌≤◌, ◌^◌};
ghost use Rattle.cvd_line_ends.specs.Ends.{ReadsLines};
ghost use Rattle.cvd_section_laws.proofs.Whole.{Inputs, made_design, variables_on};
ghost use Rattle.cvd_sections.specs.Fields.{load_of as bits_load};
ghost use Rattle.cvd_sections.specs.Keys.{AreCut};
ghost use Rattle.cvd_steps.specs.Bodies.{load_of};
ghost use Rattle.cvd_text.specs.Lines.{no_load};
ghost use Rattle.cvd_text.specs.Pieces.{design_marks};
ghost use Rattle.cvd_read.specs.Held.{HoldsOutside};

use crate::behaviour::Behaviour;
use crate::entries::Entries;
use crate::ports::{Inside, Outside, read_outside};
use cov_types::{Rows, Var};
use cvd_cursor::{Cursor, ReadFault};
use cvd_sections::{read_counters, read_first_line, read_vars};
use cvd_steps::Sums;
use design_tree::{Design, Instrumented};
use std::alloc::Global;

/// A design with its counters, whose lines are the pieces that are left, from the first line on. What stands behind the last line is left.
pub fn read_lines(alloc: Global, cursor: &mut Cursor<'_>) -> Result<Instrumented, ReadFault>
    requires { AreCut cursor.old.rest }
    ensures { ReadsLines design_marks (λ x held. held ≡ x) cursor.old result cursor.new }
{
    read_first_line(cursor)?;
    let counters = read_counters(cursor)?;
    let design = read_variables(alloc, cursor, counters)?;
    Ok(design)
}

/// A design with so many counters: what stands behind their number.
fn read_variables(
    alloc: Global,
    cursor: &mut Cursor<'_>,
    counters: u32,
) -> Result<Instrumented, ReadFault>
    requires { AreCut cursor.old.rest }
    ensures { ReadsLines (variables_on counters no_load) (λ p held. held ≡ made_design (tt, (counters, p))) cursor.old result cursor.new }
{
    let vars = read_vars(alloc, cursor)?;
    let sums = sums_of(vars.bits);
    let outside = read_outside(alloc, cursor, vars.vars.as_slice(), counters, sums)?;
    Ok(design_of(vars.vars, counters, outside))
}

/// What the lines of variables of so many bits add up to.
fn sums_of(bits: u32) -> Sums
    ensures { load_of result ≡ bits_load bits }
{
    Sums {
        bits: bits as u64,
        steps: 0,
        nodes: 0,
        shown: 0,
    }
}

/// The design of these parts.
fn design_of(vars: Rows<Var>, counters: u32, outside: Outside) -> Instrumented
    ensures { (p : Inputs) → HoldsOutside p outside → result ≡ made_design (tt, (counters, (vars, p))) }
{
    let Outside { inputs, inside } = outside;
    let Inside { outputs, behaviour } = inside;
    let Behaviour { processes, entries } = behaviour;
    let Entries { toggles, points } = entries;
    Instrumented {
        design: Design {
            vars,
            inputs,
            outputs,
            processes,
        },
        counters,
        toggles,
        points,
    }
}
