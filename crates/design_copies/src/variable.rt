ghost use Rattle.std.specs.Prelude.{◌≡◌, IfOk};

use cov_types::{ByteText, NoMemory, Rows, Var};
use design_tree::Input;
use std::alloc::Global;

/// A copy of variables.
pub fn copy_variables(alloc: Global, variables: &[Var]) -> Result<Rows<Var>, NoMemory>
    ensures { IfOk result (λ copies. copies ≡ variables.now) }
{
    Ok(Rows::from_vec(Vec::from_slice(alloc, variables)?))
}

/// A copy of inputs.
pub fn copy_inputs(alloc: Global, inputs: &[Input]) -> Result<Rows<Input>, NoMemory>
    ensures { IfOk result (λ copies. copies ≡ inputs.now) }
{
    let mut copies = Rows::new(alloc);
    for input in inputs {
        let name = ByteText::from_slice(alloc, input.name.as_slice())?;
        copies.push(Input {
            var: input.var,
            name,
        })?;
    }
    Ok(copies)
}

/// A copy of numbers.
pub fn copy_numbers(alloc: Global, numbers: &[u32]) -> Result<Rows<u32>, NoMemory>
    ensures { IfOk result (λ copies. copies ≡ numbers.now) }
{
    Ok(Rows::from_vec(Vec::from_slice(alloc, numbers)?))
}
