ghost use Rattle.std.specs.Prelude.{◌≡◌, ◌<◌, ◌≤◌, ℕ, List, None, length, IfOk, OnOk, OnErr, is_some, not};
ghost use Rattle.std.specs.Option.{option_copied, option_or};
ghost use Rattle.scope_table.specs.Tables.{value_in, value_at, only_in};

use cov_types::NoMemory;
use name_table::NameTable;
use std::alloc::Global;

/// Values by the number of a scope and a name of it, as they were put in first.
#[derive(Drop)]
pub struct ScopeTable<V> {
    tables: Vec<NameTable<V>>,
}

impl<V> ScopeTable<V> {
    /// A table with nothing in it. It takes no memory.
    pub fn new(alloc: Global) -> ScopeTable<V>
        ensures { (scope : ℕ) (name : List ℕ) → value_in result scope name ≡ None }
    {
        ScopeTable {
            tables: Vec::new(alloc),
        }
    }

    /// The value of a name of a scope, where it has one.
    pub fn get(&self, scope: u32, name: &[u8]) -> Option<&V>
        ensures { option_copied result ≡ value_in self.now scope name.now }
    {
        match sqlite_items::at(self.tables.as_slice(), scope as usize) {
            Some(table) => table.get(name),
            None => None,
        }
    }

    /// Whether a name of a scope has a value.
    pub fn contains(&self, scope: u32, name: &[u8]) -> bool
        ensures { result ≡ is_some (value_in self.now scope name.now) }
    {
        match sqlite_items::at(self.tables.as_slice(), scope as usize) {
            Some(table) => table.contains(name),
            None => false,
        }
    }
}

/// Makes a table for each scope below a number.
#[tactic(auto, using(crate::proofs::Changes::with_empty))]
fn grow<V: Drop>(
    alloc: Global,
    tables: &mut Vec<NameTable<V>>,
    count: usize,
) -> Result<(), NoMemory>
    ensures values { (scope : ℕ) (name : List ℕ) → value_at tables.new.items scope name ≡ value_at tables.old.items scope name }
    ensures enough { OnOk result (count ≤ length tables.new.items) }
{
    'tables: while tables.len() < count {
        tables.push(NameTable::new(alloc))?;
    }
    Ok(())
}

/// Puts a value into the table of a scope, which has to be there.
fn put_in<V: Drop>(
    alloc: Global,
    tables: &mut Vec<NameTable<V>>,
    scope: usize,
    name: &[u8],
    value: V,
) -> Result<bool, NoMemory>
    requires { scope < length tables.old.items }
    ensures ok { OnOk result ((s : ℕ) (q : List ℕ) → value_at tables.new.items s q ≡ option_or (value_at tables.old.items s q) (only_in scope name.now value s q)) }
    ensures was_new { IfOk result (λ was_new. was_new ≡ not (is_some (value_at tables.old.items scope name.now))) }
    ensures err { OnErr result ((s : ℕ) (q : List ℕ) → value_at tables.new.items s q ≡ value_at tables.old.items s q) }
{
    tables[scope].put(alloc, name, value)
}

impl<V: Drop> ScopeTable<V> {
    /// Gives a name of a scope a value unless it has one, and says whether it had none.
    pub fn put(
        &mut self,
        alloc: Global,
        scope: u32,
        name: &[u8],
        value: V,
    ) -> Result<bool, NoMemory>
        ensures ok { OnOk result ((s : ℕ) (q : List ℕ) → value_in self.new s q ≡ option_or (value_in self.old s q) (only_in scope name.now value s q)) }
        ensures was_new { IfOk result (λ was_new. was_new ≡ not (is_some (value_in self.old scope name.now))) }
        ensures err { OnErr result ((s : ℕ) (q : List ℕ) → value_in self.new s q ≡ value_in self.old s q) }
    {
        let at = scope as usize;
        grow(alloc, &mut self.tables, at + 1)?;
        put_in(alloc, &mut self.tables, at, name, value)
    }
}
