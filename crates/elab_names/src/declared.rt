ghost use Rattle.std.specs.Prelude.{◌≡◌, ℕ, List, [], ◌∷◌, ◌++◌, map, IfOk, if◌then◌else◌};
ghost use Rattle.std.specs.List.{flat_map};
ghost use Rattle.scope_meaning.specs.Declared as spec;
ghost use Rattle.vlog_tree.specs.declared.item.GenBody.{out-GenBody};
ghost use Rattle.elab_names.specs.Arms.{arm_names, last_names};
ghost use Rattle.elab_names.specs.DeclaredNames.{seen, block_seen};

use crate::has_name::HasName;
use cov_types::{ByteText, NoMemory, Rows};
use name_table::NameTable;
use std::alloc::Global;
use vlog_tree::{GenArm, GenBody, Item, ItemKind, Module};

/// What a name is declared as, as far as values need it.
#[derive(Clone, Copy, Debug, PartialEq, Eq)]
pub enum NameKind {
    /// A parameter.
    Constant,
    /// A genvar.
    Genvar,
    /// A variable, an instance or a generate block.
    Other,
}

/// A declared name.
#[derive(Drop)]
pub struct DeclaredName {
    pub name: ByteText,
    pub kind: NameKind,
}

/// The names so far, or want of memory.
type DeclaredNames = Result<Rows<DeclaredName>, NoMemory>;

/// The names of a declaration, behind others.
fn with_all<T: HasName>(
    alloc: Global,
    before: Rows<DeclaredName>,
    of: &[T],
    kind: NameKind,
) -> DeclaredNames
    ensures { IfOk result (λ all. all ≡ before ++ map (λ n. record { name = T.named n; kind = kind }) of.now) }
{
    let mut all = before;
    for one in of {
        let name = ByteText::from_slice(alloc, one.name().as_slice())?;
        all.push(DeclaredName { name, kind })?;
    }
    Ok(all)
}

/// The name of a block where it is wanted, behind others.
fn with_block(
    alloc: Global,
    before: Rows<DeclaredName>,
    name: &ByteText,
    is_wanted: bool,
) -> DeclaredNames
    ensures { IfOk result (λ all. all ≡ before ++ (if is_wanted then block_seen name.now ∷ [] else [])) }
{
    if !is_wanted {
        return Ok(before);
    }
    let mut all = before;
    let name = ByteText::from_slice(alloc, name.as_slice())?;
    all.push(DeclaredName {
        name,
        kind: NameKind::Other,
    })?;
    Ok(all)
}

/// The names, each once, behind others.
fn with_once(alloc: Global, before: Rows<DeclaredName>, names: &[ByteText]) -> DeclaredNames
    ensures { IfOk result (λ all. all ≡ before ++ map block_seen (spec.once names.now)) }
{
    let mut seen = NameTable::new(alloc);
    let mut all = before;
    for name in names {
        let is_new = seen.put(alloc, name.as_slice(), ())?;
        all = with_block(alloc, all, name, is_new)?;
    }
    Ok(all)
}

/// The name of a body of a generate `if`, if it has one, behind others.
fn with_body(
    alloc: Global,
    before: Rows<ByteText>,
    body: &GenBody,
) -> Result<Rows<ByteText>, NoMemory>
    ensures { IfOk result (λ all. all ≡ before ++ spec.block_names (out-GenBody body.now).name) }
{
    let mut all = before;
    match &body.name {
        Some(named) => {
            let name = ByteText::from_slice(alloc, named.name.as_slice())?;
            all.push(name)?;
            Ok(all)
        }
        None => Ok(all),
    }
}

/// The names of the arms of a generate `if`.
fn names_of_arms(alloc: Global, arms: &[GenArm]) -> Result<Rows<ByteText>, NoMemory>
    ensures { IfOk result (λ all. all ≡ flat_map arm_names arms.now) }
{
    let mut all = Rows::new(alloc);
    for arm in arms {
        all = with_body(alloc, all, &arm.body)?;
    }
    Ok(all)
}

/// The names of a generate `if`, whose arms may have one name, behind others.
fn with_choice(
    alloc: Global,
    before: Rows<DeclaredName>,
    arms: &[GenArm],
    last: &Option<GenBody>,
) -> DeclaredNames
    ensures { IfOk result (λ all. all ≡ before ++ map block_seen (spec.once (flat_map arm_names arms.now ++ last_names last.now))) }
{
    let names = names_of_arms(alloc, arms)?;
    match last {
        Some(body) => {
            let names = with_body(alloc, names, body)?;
            with_once(alloc, before, names.as_slice())
        }
        None => with_once(alloc, before, names.as_slice()),
    }
}

/// What an item declares in its scope, behind others.
#[cycle(declared)]
fn with_item(alloc: Global, before: Rows<DeclaredName>, item: &Item) -> DeclaredNames
    ensures { IfOk result (λ all. all ≡ before ++ map seen (spec.declares item.now)) }
{
    match &item.what {
        ItemKind::Wire { names, .. } => {
            return with_all(alloc, before, names.as_slice(), NameKind::Other);
        }
        ItemKind::Reg { names, .. } => {
            return with_all(alloc, before, names.as_slice(), NameKind::Other);
        }
        ItemKind::Integer(names) => {
            return with_all(alloc, before, names.as_slice(), NameKind::Other);
        }
        ItemKind::Genvar(names) => {
            return with_all(alloc, before, names.as_slice(), NameKind::Genvar);
        }
        ItemKind::Parameter { names, .. } => {
            return with_all(alloc, before, names.as_slice(), NameKind::Constant);
        }
        ItemKind::Instances { made, .. } => {
            return with_all(alloc, before, made.as_slice(), NameKind::Other);
        }
        ItemKind::Generate(items) => return with_items(alloc, before, items.as_slice()),
        ItemKind::Loop { block, .. } => return with_block(alloc, before, &block.name, true),
        ItemKind::Choose { arms, last } => return with_choice(alloc, before, arms.as_slice(), last),
        _ => return Ok(before),
    }
}

#[cycle(declared)]
fn with_items(alloc: Global, before: Rows<DeclaredName>, items: &[Item]) -> DeclaredNames
    ensures { IfOk result (λ all. all ≡ before ++ map seen (flat_map spec.declares items.now)) }
{
    let mut all = before;
    for item in items {
        all = with_item(alloc, all, item)?;
    }
    Ok(all)
}

/// What an item declares in its scope, in order.
pub fn declared_by_item(alloc: Global, item: &Item) -> Result<Rows<DeclaredName>, NoMemory>
    ensures { IfOk result (λ all. all ≡ map seen (spec.declares item.now)) }
{
    with_item(alloc, Rows::new(alloc), item)
}

/// What the scope of a generate block with these items declares, in order.
pub fn declared_by_items(alloc: Global, items: &[Item]) -> Result<Rows<DeclaredName>, NoMemory>
    ensures { IfOk result (λ all. all ≡ map seen (flat_map spec.declares items.now)) }
{
    with_items(alloc, Rows::new(alloc), items)
}

/// What the scope of a module declares, in order: its header, its ports and its items.
pub fn declared_by_module(alloc: Global, of: &Module) -> Result<Rows<DeclaredName>, NoMemory>
    ensures { IfOk result (λ all. all ≡ map seen (spec.module_declares of.now)) }
{
    let header = with_items(alloc, Rows::new(alloc), of.params.as_slice())?;
    let ports = with_all(alloc, header, of.ports.as_slice(), NameKind::Other)?;
    with_items(alloc, ports, of.items.as_slice())
}
