ghost use Rattle.std.specs.Prelude.{◌≡◌, List, map, IfOk};
ghost use Rattle.std.specs.List.{filter_map, AllZip};
ghost use Rattle.vlog_tree.specs.declared.module.SourceFile.{SourceFile};
ghost use Rattle.scope_meaning.specs.ScopeTrees as trees;
ghost use Rattle.scope_meaning.specs.Visits.{Visits};
ghost use Rattle.elab_modules.specs.Modules.{AreModules};
ghost use Rattle.walk_state.specs.Records.{AreRecorded};
ghost use Rattle.scope_rows.specs.Rows as spec;

use crate::gathered::gather;
use crate::text::{TextedScope, with_texts};
use cov_types::{NoMemory, Rows};
use elab_modules::Modules;
use elab_types::{Constant, Scope, ScopeItem, ScopeTree};
use row_lists::RowLists;
use std::alloc::Global;
use walk_state::{Entered, Record};

/// The rows of scopes in order of their numbers, where these are the constants and the rows of all scopes.
fn rows_of(
    alloc: Global,
    scopes: Rows<TextedScope>,
    constants: RowLists<Constant>,
    items: RowLists<ScopeItem>,
) -> Result<Rows<Scope>, NoMemory>
    ensures { IfOk result (λ rows. rows ≡ spec.rows_from constants items 0 scopes) }
{
    let mut constants = constants;
    let mut items = items;
    let mut rows = Rows::new(alloc);
    for scope in scopes.into_vec() {
        let number = rows.len();
        let its_constants = constants.take(alloc, number);
        let its_items = items.take(alloc, number);
        let TextedScope { entered, text } = scope;
        let Entered {
            parent,
            path,
            in_module,
            ..
        } = entered;
        rows.push(Scope {
            path,
            module: in_module,
            module_text: text,
            parent,
            constants: its_constants,
            items: its_items,
        })?;
    }
    Ok(rows)
}

/// The scope tree of what a walk recorded: each scope with the text of its module, its constants and its rows. It takes time
/// and memory in proportion to the records and the tree.
pub fn scope_tree(
    alloc: Global,
    modules: &Modules<'_>,
    records: Rows<Record>,
) -> Result<ScopeTree, NoMemory>
    ensures { (files : List SourceFile) (vs : Visits) → AreModules files modules.now → AreRecorded vs records
        → IfOk result (λ tree. AllZip (trees.IsScopeRow (trees.modules files) vs) (filter_map trees.entry_of vs) tree.scopes) }
{
    let all = gather(alloc, records)?;
    let scopes = with_texts(alloc, modules, all.entered, &all.constants)?;
    let scopes = rows_of(alloc, scopes, all.constants, all.items)?;
    Ok(ScopeTree { scopes })
}
