ghost use Rattle.std.specs.Prelude.{◌≡◌, ℕ, List, [], ◌∷◌, ◌++◌, map, IfOk, if◌then◌else◌};
ghost use Rattle.std.specs.List.{flat_map};
ghost use Rattle.scope_meaning.specs.Declared as spec;
ghost use Rattle.vlog_tree.specs.declared.item.GenBody.{out-GenBody};
ghost use Rattle.elab_names.specs.Arms.{arm_names, last_names};
ghost use Rattle.flat_declared.specs.Kinds.{seen, kind_seen, block_seen};

use crate::has_name::HasName;
use cov_types::{ByteText, NoMemory, Rows};
use name_table::NameTable;
use std::alloc::Global;
use vlog_tree::{GenArm, GenBody, Item, ItemKind, Module, Port, PortKind};

/// What a name is declared as.
#[derive(Clone, Copy, Debug, PartialEq, Eq)]
pub enum DeclaredKind {
    /// A port `input`.
    Input,
    /// A port `output` or `output wire`.
    OutputWire,
    /// A port `output reg`.
    OutputReg,
    /// `wire`
    Wire,
    /// `reg`
    Reg,
    /// `integer`
    Integer,
    /// `parameter` or `localparam`
    Constant,
    /// `genvar`
    Genvar,
    /// An instance or a generate block.
    ScopeName,
}

/// A declared name, and what it is declared as.
#[derive(Drop)]
pub struct KindOfName {
    pub name: ByteText,
    pub kind: DeclaredKind,
}

/// The names so far, or want of memory.
type KindsOfNames = Result<Rows<KindOfName>, NoMemory>;

/// The names of a declaration, behind others.
fn with_all<T: HasName>(
    alloc: Global,
    before: Rows<KindOfName>,
    of: &[T],
    kind: DeclaredKind,
) -> KindsOfNames
    ensures { IfOk result (λ all. all ≡ before ++ map (λ n. record { name = T.named n; kind = kind }) of.now) }
{
    let mut all = before;
    for one in of {
        let name = ByteText::from_slice(alloc, one.name().as_slice())?;
        all.push(KindOfName { name, kind })?;
    }
    Ok(all)
}

/// The name of a block where it is wanted, behind others.
fn with_block(
    alloc: Global,
    before: Rows<KindOfName>,
    name: &ByteText,
    is_wanted: bool,
) -> KindsOfNames
    ensures { IfOk result (λ all. all ≡ before ++ (if is_wanted then block_seen name.now ∷ [] else [])) }
{
    if !is_wanted {
        return Ok(before);
    }
    let mut all = before;
    let name = ByteText::from_slice(alloc, name.as_slice())?;
    all.push(KindOfName {
        name,
        kind: DeclaredKind::ScopeName,
    })?;
    Ok(all)
}

/// The names, each once, behind others.
fn with_once(alloc: Global, before: Rows<KindOfName>, names: &[ByteText]) -> KindsOfNames
    ensures { IfOk result (λ all. all ≡ before ++ map block_seen (spec.once names.now)) }
{
    let mut seen = NameTable::new(alloc);
    let mut all = before;
    for name in names {
        let is_new = seen.put(alloc, name.as_slice(), ())?;
        all = with_block(alloc, all, name, is_new)?;
    }
    Ok(all)
}

/// The name of a body of a generate `if`, if it has one, behind others.
fn with_body(
    alloc: Global,
    before: Rows<ByteText>,
    body: &GenBody,
) -> Result<Rows<ByteText>, NoMemory>
    ensures { IfOk result (λ all. all ≡ before ++ spec.block_names (out-GenBody body.now).name) }
{
    let mut all = before;
    match &body.name {
        Some(named) => {
            let name = ByteText::from_slice(alloc, named.name.as_slice())?;
            all.push(name)?;
            Ok(all)
        }
        None => Ok(all),
    }
}

/// The names of the arms of a generate `if`.
fn names_of_arms(alloc: Global, arms: &[GenArm]) -> Result<Rows<ByteText>, NoMemory>
    ensures { IfOk result (λ all. all ≡ flat_map arm_names arms.now) }
{
    let mut all = Rows::new(alloc);
    for arm in arms {
        all = with_body(alloc, all, &arm.body)?;
    }
    Ok(all)
}

/// The names of a generate `if`, whose arms may have one name, behind others.
fn with_choice(
    alloc: Global,
    before: Rows<KindOfName>,
    arms: &[GenArm],
    last: &Option<GenBody>,
) -> KindsOfNames
    ensures { IfOk result (λ all. all ≡ before ++ map block_seen (spec.once (flat_map arm_names arms.now ++ last_names last.now))) }
{
    let names = names_of_arms(alloc, arms)?;
    match last {
        Some(body) => {
            let names = with_body(alloc, names, body)?;
            with_once(alloc, before, names.as_slice())
        }
        None => with_once(alloc, before, names.as_slice()),
    }
}

/// What an item declares in its scope, behind others.
#[cycle(declared)]
fn with_item(alloc: Global, before: Rows<KindOfName>, item: &Item) -> KindsOfNames
    ensures { IfOk result (λ all. all ≡ before ++ map seen (spec.declares item.now)) }
{
    match &item.what {
        ItemKind::Wire { names, .. } => {
            return with_all(alloc, before, names.as_slice(), DeclaredKind::Wire);
        }
        ItemKind::Reg { names, .. } => {
            return with_all(alloc, before, names.as_slice(), DeclaredKind::Reg);
        }
        ItemKind::Integer(names) => {
            return with_all(alloc, before, names.as_slice(), DeclaredKind::Integer);
        }
        ItemKind::Genvar(names) => {
            return with_all(alloc, before, names.as_slice(), DeclaredKind::Genvar);
        }
        ItemKind::Parameter { names, .. } => {
            return with_all(alloc, before, names.as_slice(), DeclaredKind::Constant);
        }
        ItemKind::Instances { made, .. } => {
            return with_all(alloc, before, made.as_slice(), DeclaredKind::ScopeName);
        }
        ItemKind::Generate(items) => return with_items(alloc, before, items.as_slice()),
        ItemKind::Loop { block, .. } => return with_block(alloc, before, &block.name, true),
        ItemKind::Choose { arms, last } => return with_choice(alloc, before, arms.as_slice(), last),
        _ => return Ok(before),
    }
}

#[cycle(declared)]
fn with_items(alloc: Global, before: Rows<KindOfName>, items: &[Item]) -> KindsOfNames
    ensures { IfOk result (λ all. all ≡ before ++ map seen (flat_map spec.declares items.now)) }
{
    let mut all = before;
    for item in items {
        all = with_item(alloc, all, item)?;
    }
    Ok(all)
}

/// What a port is declared as.
fn port_kind(kind: PortKind) -> DeclaredKind
    ensures { result ≡ kind_seen (spec.port_kind kind) }
{
    match kind {
        PortKind::Input => DeclaredKind::Input,
        PortKind::OutputWire => DeclaredKind::OutputWire,
        PortKind::OutputReg => DeclaredKind::OutputReg,
    }
}

/// The names of ports, behind others.
fn with_ports(alloc: Global, before: Rows<KindOfName>, ports: &[Port]) -> KindsOfNames
    ensures { IfOk result (λ all. all ≡ before ++ map (λ p. seen (spec.declare (spec.port_kind p.kind) p.name)) ports.now) }
{
    let mut all = before;
    for port in ports {
        let name = ByteText::from_slice(alloc, port.name.as_slice())?;
        all.push(KindOfName {
            name,
            kind: port_kind(port.kind),
        })?;
    }
    Ok(all)
}

/// What the scope of a generate block with these items declares, in order.
pub fn declared_by_items(alloc: Global, items: &[Item]) -> Result<Rows<KindOfName>, NoMemory>
    ensures { IfOk result (λ all. all ≡ map seen (flat_map spec.declares items.now)) }
{
    with_items(alloc, Rows::new(alloc), items)
}

/// What the scope of a module declares, in order: its header, its ports and its items.
pub fn declared_by_module(alloc: Global, of: &Module) -> Result<Rows<KindOfName>, NoMemory>
    ensures { IfOk result (λ all. all ≡ map seen (spec.module_declares of.now)) }
{
    let header = with_items(alloc, Rows::new(alloc), of.params.as_slice())?;
    let ports = with_ports(alloc, header, of.ports.as_slice())?;
    with_items(alloc, ports, of.items.as_slice())
}
