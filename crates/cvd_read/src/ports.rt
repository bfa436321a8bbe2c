//! Inputs and outputs, and what stands behind them.

ghost use Rattle.std.specs.Prelude.{◌≡◌, ◌≤◌, ◌^◌, All, length, true};
ghost use Rattle.cvd_line_ends.specs.Ends.{ReadsLines};
ghost use Rattle.cvd_section_laws.proofs.Whole.{inputs_on, outputs_on};
ghost use Rattle.cvd_sections.specs.Keys.{AreCut};
ghost use Rattle.cvd_steps.specs.Bodies.{load_of};
ghost use Rattle.cvd_text.specs.Lines.{is_within};
ghost use Rattle.design_meaning.specs.ValidVariables.{IsVariable};
ghost use Rattle.cvd_read.specs.Held.{HoldsInside, HoldsOutside};

use crate::behaviour::{Behaviour, read_behaviour};
use cov_types::{Rows, Var};
use cvd_cursor::{Cursor, ReadFault};
use cvd_inputs::read_inputs;
use cvd_sections::read_outputs;
use cvd_steps::Sums;
use design_tree::Input;
use std::alloc::Global;

/// What stands behind the inputs of a design.
#[derive(Drop)]
pub(crate) struct Inside {
    pub(crate) outputs: Rows<u32>,
    pub(crate) behaviour: Behaviour,
}

/// What stands behind the variables of a design.
#[derive(Drop)]
pub(crate) struct Outside {
    pub(crate) inputs: Rows<Input>,
    pub(crate) inside: Inside,
}

/// The outputs of a design over variables with so many counters, and what stands behind them.
fn read_inside(
    alloc: Global,
    cursor: &mut Cursor<'_>,
    vars: &[Var],
    counters: u32,
    sums: Sums,
) -> Result<Inside, ReadFault>
    requires few { length vars.now ≤ 2 ^ 32 }
    requires variables { All IsVariable vars.now }
    requires sums { is_within (load_of sums) ≡ true }
    requires cut { AreCut cursor.old.rest }
    ensures { ReadsLines (outputs_on vars.now counters (load_of sums)) HoldsInside cursor.old result cursor.new }
{
    let outputs = read_outputs(alloc, cursor, vars)?;
    let behaviour = read_behaviour(alloc, cursor, vars, counters, sums)?;
    Ok(Inside { outputs, behaviour })
}

/// The inputs of a design over variables with so many counters, and what stands behind them.
pub(crate) fn read_outside(
    alloc: Global,
    cursor: &mut Cursor<'_>,
    vars: &[Var],
    counters: u32,
    sums: Sums,
) -> Result<Outside, ReadFault>
    requires few { length vars.now ≤ 2 ^ 32 }
    requires variables { All IsVariable vars.now }
    requires sums { is_within (load_of sums) ≡ true }
    requires cut { AreCut cursor.old.rest }
    ensures { ReadsLines (inputs_on vars.now counters (load_of sums)) HoldsOutside cursor.old result cursor.new }
{
    let inputs = read_inputs(alloc, cursor, vars)?;
    let inside = read_inside(alloc, cursor, vars, counters, sums)?;
    Ok(Outside { inputs, inside })
}
