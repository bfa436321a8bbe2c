ghost use Rattle.std.specs.Prelude.{◌≡◌, ℕ, List, [], ◌∷◌, ◌++◌, ◌||◌, not, map, IfOk, OnOk};
ghost use Rattle.scope_meaning.specs.Declared.{names_of};
ghost use Rattle.elab_overrides.specs.Overrides.{AreAmong};
ghost use Rattle.elab_blocks.specs.Duplicates.{is_duplicate, names_in};

use cov_types::NoMemory;
use elab_names::{DeclaredName, declared_by_item};
use name_table::NameTable;
use std::alloc::Global;
use vlog_tree::Item;

/// Whether a name stands in its scope already. It stands there from then on.
pub fn stands_twice(
    alloc: Global,
    earlier: &mut NameTable<()>,
    name: &[u8],
) -> Result<bool, NoMemory>
    ensures value { (before : List (List ℕ)) → AreAmong before earlier.old → IfOk result (λ bad. bad ≡ is_duplicate before (name.now ∷ [])) }
    ensures earlier { (before : List (List ℕ)) → AreAmong before earlier.old → OnOk result (AreAmong (before ++ name.now ∷ []) earlier.new) }
{
    let is_new = earlier.put(alloc, name, ())?;
    Ok(!is_new)
}

fn or_old(bad: bool, is_new: bool) -> bool
    ensures { result ≡ (bad || not is_new) }
{
    bad || !is_new
}

fn some_twice(
    alloc: Global,
    earlier: &mut NameTable<()>,
    names: &[DeclaredName],
) -> Result<bool, NoMemory>
    ensures value { (before : List (List ℕ)) → AreAmong before earlier.old → IfOk result (λ bad. bad ≡ is_duplicate before (names_in names.now)) }
    ensures earlier { (before : List (List ℕ)) → AreAmong before earlier.old → OnOk result (AreAmong (before ++ names_in names.now) earlier.new) }
{
    let mut bad = false;
    for name in names {
        let is_new = earlier.put(alloc, name.name.as_slice(), ())?;
        bad = or_old(bad, is_new);
    }
    Ok(bad)
}

/// Whether an item declares a name that stands in its scope already, or one name twice. Its names stand there from then on.
pub fn declares_twice(
    alloc: Global,
    earlier: &mut NameTable<()>,
    item: &Item,
) -> Result<bool, NoMemory>
    ensures value { (before : List (List ℕ)) → AreAmong before earlier.old → IfOk result (λ bad. bad ≡ is_duplicate before (names_of item.now)) }
    ensures earlier { (before : List (List ℕ)) → AreAmong before earlier.old → OnOk result (AreAmong (before ++ names_of item.now) earlier.new) }
{
    let names = declared_by_item(alloc, item)?;
    some_twice(alloc, earlier, names.as_slice())
}
