ghost use Rattle.std.specs.Prelude.{◌≡◌, List, ◌∷◌, [], Some, slice_get};
ghost use Rattle.vlog_tree.specs.declared.module.Module.{Module};
ghost use Rattle.vlog_tree.specs.declared.module.SourceFile.{SourceFile};
ghost use Rattle.scope_meaning.specs.ScopeTrees.{modules};
ghost use Rattle.elab_modules.specs.Tables.{IsTable, Adds, module_at};

use cov_types::Rows;
use elab_overrides::Parameters;
use elab_types::ElabFault;
use name_table::NameTable;
use std::alloc::Global;
use vlog_tree::{Module, SourceFile};

/// Where a module stands: the number of its file, and its number in the file; and its parameters.
#[derive(Drop)]
pub(crate) struct ModuleRow {
    pub(crate) file: usize,
    pub(crate) index: usize,
    pub(crate) parameters: Parameters,
}

/// Modules by number, and their numbers by name.
#[derive(Drop)]
pub(crate) struct ModuleTable {
    pub(crate) rows: Rows<ModuleRow>,
    pub(crate) numbers: NameTable<usize>,
}

/// One module more, or why there is none: its name stands before.
fn with_module(
    alloc: Global,
    table: ModuleTable,
    file: usize,
    index: usize,
    module: &Module,
) -> Result<ModuleTable, ElabFault>
    ensures { (files : List SourceFile) (ms : List Module) → IsTable files ms table → module_at files file index ≡ Some module.now
        → Adds files ms (module.now ∷ []) result }
{
    let ModuleTable {
        mut rows,
        mut numbers,
    } = table;
    let is_new = numbers.put(alloc, module.name.as_slice(), rows.len())?;
    if !is_new {
        return Err(ElabFault::Duplicate(module.place));
    }
    let parameters = Parameters::of(alloc, module)?;
    rows.push(ModuleRow {
        file,
        index,
        parameters,
    })?;
    Ok(ModuleTable { rows, numbers })
}

/// The modules of a file more.
fn with_file(
    alloc: Global,
    table: ModuleTable,
    number: usize,
    file: &SourceFile,
) -> Result<ModuleTable, ElabFault>
    ensures { (files : List SourceFile) (ms : List Module) → IsTable files ms table → slice_get files number ≡ Some file.now
        → Adds files ms file.now.modules result }
{
    let modules = file.modules.as_slice();
    let mut all = table;
    for (index, module) in modules.iter().enumerate() {
        all = match with_module(alloc, all, number, index, module) {
            Ok(more) => more,
            Err(fault) => return Err(fault),
        };
    }
    Ok(all)
}

/// The modules of all files.
pub(crate) fn table_of(alloc: Global, files: &[SourceFile]) -> Result<ModuleTable, ElabFault>
    ensures { Adds files.now [] (modules files.now) result }
{
    let mut all = ModuleTable {
        rows: Rows::new(alloc),
        numbers: NameTable::new(alloc),
    };
    for (number, file) in files.iter().enumerate() {
        all = match with_file(alloc, all, number, file) {
            Ok(more) => more,
            Err(fault) => return Err(fault),
        };
    }
    Ok(all)
}
