ghost use Rattle.std.specs.Prelude.{◌≡◌, ℕ, List, None, IfOk, OnOk, OnErr, is_some, not};
ghost use Rattle.std.specs.Option.{option_copied, option_or};
ghost use Rattle.name_table.specs.Tables.{value_of, only};

use cov_types::NoMemory;
use indexmap::IndexMap;
use std::alloc::Global;

/// Values by name, as they were put in first.
#[derive(Drop)]
pub struct NameTable<V> {
    values: IndexMap<Vec<u8>, V>,
}

impl<V> NameTable<V> {
    /// A table with no names. It takes no memory.
    pub fn new(alloc: Global) -> NameTable<V>
        ensures { (name : List ℕ) → value_of result name ≡ None }
    {
        NameTable {
            values: IndexMap::new(alloc),
        }
    }

    /// The value of a name, where it has one.
    pub fn get(&self, name: &[u8]) -> Option<&V>
        ensures { option_copied result ≡ value_of self.now name.now }
    {
        self.values.get(name)
    }

    /// Whether a name has a value.
    pub fn contains(&self, name: &[u8]) -> bool
        ensures { result ≡ is_some (value_of self.now name.now) }
    {
        self.values.contains_key(name)
    }
}

impl<V: Drop> NameTable<V> {
    /// Gives a name a value unless it has one, and says whether it had none.
    pub fn put(&mut self, alloc: Global, name: &[u8], value: V) -> Result<bool, NoMemory>
        ensures ok { OnOk result ((q : List ℕ) → value_of self.new q ≡ option_or (value_of self.old q) (only name.now value q)) }
        ensures was_new { IfOk result (λ was_new. was_new ≡ not (is_some (value_of self.old name.now))) }
        ensures err { OnErr result ((q : List ℕ) → value_of self.new q ≡ value_of self.old q) }
    {
        if self.values.contains_key(name) {
            return Ok(false);
        }
        let key = Vec::from_slice(alloc, name)?;
        self.values.insert(key, value)?;
        Ok(true)
    }
}
