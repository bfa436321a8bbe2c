ghost use Rattle.std.specs.Prelude.{◌≡◌, ◌≤◌, map, IfOk};
ghost use Rattle.vlog_tree.specs.Trees.{layer};
ghost use Rattle.scope_meaning.specs.Constants as constants;
ghost use Rattle.flat_source_meaning.specs.Variables as spec;
ghost use Rattle.flat_variables.specs.Sizes.{span_of};

use crate::memory::{as_memory, declared_memory};
use crate::size::{Size, declared_size, port_size};
use crate::start::declared_start;
use crate::variable::{Shape, integer_variable, variable, variable_at};
use cov_types::{NoMemory, Rows};
use elab_constants::Names;
use elab_types::{FlatVar, VarKind};
use std::alloc::Global;
use vlog_tree::{Item, ItemKind, NamePlace, Port, PortKind, RangeExpr, RegName, WireName};

/// Variables in the order of their declarations, or want of memory.
type Variables = Result<Rows<FlatVar>, NoMemory>;

/// What the variable of a port is: an input of the top alone is an input of the design.
fn kind_of(scope: u32, kind: PortKind) -> VarKind
    ensures { result ≡ spec.port_variable_kind scope kind }
{
    match kind {
        PortKind::Input => {
            if scope == 0 {
                VarKind::Input
            } else {
                VarKind::Wire
            }
        }
        PortKind::OutputWire => VarKind::Wire,
        PortKind::OutputReg => VarKind::Reg,
    }
}

/// The variable of a port of a scope.
pub fn port_variable<N: Names>(
    alloc: Global,
    names: &N,
    scope: u32,
    port: &Port,
) -> Result<FlatVar, NoMemory>
    ensures { (known : constants.Names) → N.environment names.now ≡ constants.constants known
        → IfOk result (λ x. x ≡ spec.port_variable known scope port.now) }
{
    let size = port_size(alloc, names, &port.range)?;
    let shape = Shape {
        scope,
        kind: kind_of(scope, port.kind),
        signed: port.signed,
        size,
    };
    variable_at(alloc, shape, port.name_place, port.name.as_slice(), 0)
}

/// The wires of a declaration.
fn with_wires(alloc: Global, scope: u32, signed: bool, size: Size, names: &[WireName]) -> Variables
    ensures { IfOk result (λ all. all ≡ map (λ w. spec.variable scope VarKind.Wire signed (span_of size) w.name 0) names.now) }
{
    let mut all = Rows::new(alloc);
    let shape = Shape {
        scope,
        kind: VarKind::Wire,
        signed,
        size,
    };
    for wire in names {
        all.push(variable(alloc, shape, &wire.name, 0)?)?;
    }
    Ok(all)
}

/// The wires of a declaration with or without a range.
fn wires<N: Names>(
    alloc: Global,
    names: &N,
    scope: u32,
    signed: bool,
    range: &Option<RangeExpr>,
    wires: &[WireName],
) -> Variables
    ensures { (known : constants.Names) → N.environment names.now ≡ constants.constants known
        → IfOk result (λ all. all ≡ map (λ w. spec.variable scope VarKind.Wire signed (spec.span_or_scalar known range.now) w.name 0) wires.now) }
{
    let size = declared_size(alloc, names, range)?;
    with_wires(alloc, scope, signed, size, wires)
}

/// A reg, which may be a memory and may have a start.
fn reg_variable<N: Names>(
    alloc: Global,
    names: &N,
    scope: u32,
    signed: bool,
    size: Size,
    reg: &RegName,
) -> Result<FlatVar, NoMemory>
    requires at_least { 1 ≤ size.width }
    requires at_most { size.width ≤ 128 }
    ensures { (known : constants.Names) → N.environment names.now ≡ constants.constants known
        → IfOk result (λ x. x ≡ spec.reg_variable known scope signed (span_of size) reg.now) }
{
    let start = declared_start(alloc, names, size.width, &reg.start)?;
    let memory = declared_memory(alloc, names, &reg.words)?;
    let shape = Shape {
        scope,
        kind: VarKind::Reg,
        signed,
        size,
    };
    let plain = variable(alloc, shape, &reg.name, start)?;
    Ok(as_memory(plain, memory))
}

/// The regs of a declaration.
fn with_regs<N: Names>(
    alloc: Global,
    names: &N,
    scope: u32,
    signed: bool,
    size: Size,
    regs: &[RegName],
) -> Variables
    requires at_least { 1 ≤ size.width }
    requires at_most { size.width ≤ 128 }
    ensures { (known : constants.Names) → N.environment names.now ≡ constants.constants known
        → IfOk result (λ all. all ≡ map (spec.reg_variable known scope signed (span_of size)) regs.now) }
{
    let mut all = Rows::new(alloc);
    for reg in regs {
        all.push(reg_variable(alloc, names, scope, signed, size, reg)?)?;
    }
    Ok(all)
}

/// The regs of a declaration with or without a range.
fn regs<N: Names>(
    alloc: Global,
    names: &N,
    scope: u32,
    signed: bool,
    range: &Option<RangeExpr>,
    regs: &[RegName],
) -> Variables
    ensures { (known : constants.Names) → N.environment names.now ≡ constants.constants known
        → IfOk result (λ all. all ≡ map (spec.reg_variable known scope signed (spec.span_or_scalar known range.now)) regs.now) }
{
    let size = declared_size(alloc, names, range)?;
    with_regs(alloc, names, scope, signed, size, regs)
}

/// The integers of a declaration.
fn integers(alloc: Global, scope: u32, names: &[NamePlace]) -> Variables
    ensures { IfOk result (λ all. all ≡ map (spec.integer_variable scope) names.now) }
{
    let mut all = Rows::new(alloc);
    for name in names {
        all.push(integer_variable(alloc, scope, name)?)?;
    }
    Ok(all)
}

/// The variables that an item of a scope declares, in order. The names are those that are known where it stands.
pub fn item_variables<N: Names>(alloc: Global, names: &N, scope: u32, item: &Item) -> Variables
    ensures { (known : constants.Names) → N.environment names.now ≡ constants.constants known
        → IfOk result (λ all. all ≡ spec.declared_variables known scope (layer item.now)) }
{
    match &item.what {
        ItemKind::Wire {
            signed,
            range,
            names: declared,
        } => wires(alloc, names, scope, *signed, range, declared.as_slice()),
        ItemKind::Reg {
            signed,
            range,
            names: declared,
        } => regs(alloc, names, scope, *signed, range, declared.as_slice()),
        ItemKind::Integer(declared) => integers(alloc, scope, declared.as_slice()),
        _ => Ok(Rows::new(alloc)),
    }
}
