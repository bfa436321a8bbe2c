ghost use Rattle.std.specs.Prelude.{◌≡◌, ℕ, List, ◌++◌, ◌||◌, not, map, IfOk};
ghost use Rattle.std.specs.List.{flat_map};
ghost use Rattle.scope_meaning.specs.Declared.{is_in};
ghost use Rattle.scope_meaning.specs.Overrides as spec;
ghost use Rattle.elab_overrides.specs.Overrides.{AreParameters, AreAmong, are_bad_named};

use cov_types::{ByteText, NoMemory, Rows};
use name_table::NameTable;
use std::alloc::Global;
use vlog_tree::{Conns, Item, ItemKind, Module, NamedConn, ParamName};

/// The parameters of a module that an instance may give a value, by name and in their order.
#[derive(Drop)]
pub struct Parameters {
    names: Rows<ByteText>,
    among: NameTable<()>,
}

/// The names of a declaration, behind others.
fn with_names(
    alloc: Global,
    names: Rows<ByteText>,
    declared: &[ParamName],
) -> Result<Rows<ByteText>, NoMemory>
    ensures { IfOk result (λ all. all ≡ names ++ map (λ p. p.name.name) declared.now) }
{
    let mut all = names;
    for parameter in declared {
        let name = ByteText::from_slice(alloc, parameter.name.name.as_slice())?;
        all.push(name)?;
    }
    Ok(all)
}

/// The names that an item declares by `parameter`, behind others.
#[cycle(parameters)]
fn with_item(alloc: Global, names: Rows<ByteText>, item: &Item) -> Result<Rows<ByteText>, NoMemory>
    ensures { IfOk result (λ all. all ≡ names ++ spec.parameters_of item.now) }
{
    match &item.what {
        ItemKind::Parameter {
            local,
            form: _,
            names: declared,
        } => {
            if *local {
                return Ok(names);
            }
            return with_names(alloc, names, declared.as_slice());
        }
        ItemKind::Generate(items) => return with_items(alloc, names, items.as_slice()),
        _ => return Ok(names),
    }
}

#[cycle(parameters)]
fn with_items(
    alloc: Global,
    names: Rows<ByteText>,
    items: &[Item],
) -> Result<Rows<ByteText>, NoMemory>
    ensures { IfOk result (λ all. all ≡ names ++ flat_map spec.parameters_of items.now) }
{
    let mut all = names;
    for item in items {
        all = with_item(alloc, all, item)?;
    }
    Ok(all)
}

/// The parameters of the header, or where there is no header those of the body.
fn names_of(alloc: Global, of: &Module) -> Result<Rows<ByteText>, NoMemory>
    ensures { IfOk result (λ names. names ≡ spec.parameters of.now) }
{
    if of.params.len() > 0 {
        return with_items(alloc, Rows::new(alloc), of.params.as_slice());
    }
    with_items(alloc, Rows::new(alloc), of.items.as_slice())
}

/// The names as a table.
fn table_of(alloc: Global, names: &[ByteText]) -> Result<NameTable<()>, NoMemory>
    ensures { IfOk result (λ table. AreAmong names.now table) }
{
    let mut table = NameTable::new(alloc);
    for name in names {
        table.put(alloc, name.as_slice(), ())?;
    }
    Ok(table)
}

/// Whether something was wrong before, or a name stands twice or names none.
fn or_bad(before: bool, is_new: bool, is_known: bool) -> bool
    ensures { result ≡ (before || (not is_new || not is_known)) }
{
    before || !is_new || !is_known
}

impl Parameters {
    /// The parameters of a module that may be given a value: those of its header, or where it has none those of its body.
    pub fn of(alloc: Global, declaring: &Module) -> Result<Parameters, NoMemory>
        ensures { IfOk result (AreParameters (spec.parameters declaring.now)) }
    {
        let names = names_of(alloc, declaring)?;
        let among = table_of(alloc, names.as_slice())?;
        Ok(Parameters { names, among })
    }

    /// Their names, in order.
    pub fn names(&self) -> &[ByteText]
        ensures { (names : List (List ℕ)) → AreParameters names self.now → result.now ≡ names }
    {
        self.names.as_slice()
    }

    /// Whether a name is one of them.
    pub fn contains(&self, name: &[u8]) -> bool
        ensures { (names : List (List ℕ)) → AreParameters names self.now → result ≡ is_in name.now names }
    {
        self.among.contains(name)
    }

    /// Whether values for parameters name something else, or something twice, or there are more than parameters.
    pub fn refuse(&self, alloc: Global, values: &Conns) -> Result<bool, NoMemory>
        ensures { (names : List (List ℕ)) → AreParameters names self.now → IfOk result (λ bad. bad ≡ spec.are_bad names values.now) }
    {
        match values {
            Conns::Ordered(values) => Ok(values.len() > self.names.len()),
            Conns::Named(values) => self.refuse_named(alloc, values.as_slice()),
        }
    }

    fn refuse_named(&self, alloc: Global, values: &[NamedConn]) -> Result<bool, NoMemory>
        ensures { (names : List (List ℕ)) → AreParameters names self.now → IfOk result (λ bad. bad ≡ are_bad_named names values.now) }
    {
        let mut seen = NameTable::new(alloc);
        let mut bad = false;
        for value in values {
            let name = value.name.as_slice();
            let is_new = seen.put(alloc, name, ())?;
            bad = or_bad(bad, is_new, self.contains(name));
        }
        Ok(bad)
    }
}
