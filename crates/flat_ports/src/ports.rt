ghost use Rattle.std.specs.Prelude.{◌≡◌, ◌∷◌, ◌++◌, [], ℕ, List, Option, IfOk};
ghost use Rattle.std.specs.List.{filter_map};
ghost use Rattle.elab_types.specs.declared.flat_source.FlatVar.{FlatVar};
ghost use Rattle.flat_source_meaning.specs.Environments.{position};
ghost use Rattle.flat_source_meaning.specs.Joins.{is_input_kind};
ghost use Rattle.flat_source_meaning.specs.SourceCircuit.{input_number, output_number, inputs_of, outputs_of};
ghost use Rattle.scope_table.specs.Tables.{value_in};

use cov_types::{NoMemory, Rows};
use scope_table::ScopeTable;
use std::alloc::Global;
use vlog_tree::{Port, PortKind};

/// Numbers in the order of the ports, or want of memory.
type Numbers = Result<Rows<u32>, NoMemory>;

fn is_input(kind: PortKind) -> bool
    ensures { result ≡ is_input_kind kind }
{
    match kind {
        PortKind::Input => true,
        PortKind::OutputWire => false,
        PortKind::OutputReg => false,
    }
}

/// The number of a name of the top, where it has one.
fn number_of(numbers: &ScopeTable<u32>, name: &[u8]) -> Option<u32>
    ensures { result ≡ value_in numbers.now 0 name.now }
{
    match numbers.get(0, name) {
        Some(number) => Some(*number),
        None => None,
    }
}

/// The number of an input of the top; the clock has none.
fn number_of_input(numbers: &ScopeTable<u32>, port: &Port) -> Option<u32>
    ensures { (vars : List FlatVar) → ((s : ℕ) (n : List ℕ) → value_in numbers.now s n ≡ position vars s n) → result ≡ input_number vars port.now }
{
    if is_input(port.kind) {
        return number_of(numbers, port.name.as_slice());
    }
    None
}

/// The number of an output of the top.
fn number_of_output(numbers: &ScopeTable<u32>, port: &Port) -> Option<u32>
    ensures { (vars : List FlatVar) → ((s : ℕ) (n : List ℕ) → value_in numbers.now s n ≡ position vars s n) → result ≡ output_number vars port.now }
{
    if is_input(port.kind) {
        return None;
    }
    number_of(numbers, port.name.as_slice())
}

/// One number more, where there is one.
fn with_number(so_far: Rows<u32>, number: Option<u32>) -> Numbers
    ensures { IfOk result (λ all. all ≡ so_far ++ filter_map (λ (n : Option ℕ). n) (number ∷ [])) }
{
    let mut all = so_far;
    match number {
        Some(number) => {
            all.push(number)?;
            Ok(all)
        }
        None => Ok(all),
    }
}

/// The numbers of the top's inputs in the order of its ports, the clock not among them.
///
/// The table has the number of each variable by its scope and name.
pub fn input_numbers(alloc: Global, numbers: &ScopeTable<u32>, ports: &[Port]) -> Numbers
    ensures { (vars : List FlatVar) → ((s : ℕ) (n : List ℕ) → value_in numbers.now s n ≡ position vars s n)
        → IfOk result (λ all. all ≡ inputs_of vars ports.now) }
{
    let mut all = Rows::new(alloc);
    for port in ports {
        all = with_number(all, number_of_input(numbers, port))?;
    }
    Ok(all)
}

/// The numbers of the top's outputs in the order of its ports.
pub fn output_numbers(alloc: Global, numbers: &ScopeTable<u32>, ports: &[Port]) -> Numbers
    ensures { (vars : List FlatVar) → ((s : ℕ) (n : List ℕ) → value_in numbers.now s n ≡ position vars s n)
        → IfOk result (λ all. all ≡ outputs_of vars ports.now) }
{
    let mut all = Rows::new(alloc);
    for port in ports {
        all = with_number(all, number_of_output(numbers, port))?;
    }
    Ok(all)
}
