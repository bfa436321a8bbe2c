ghost use Rattle.std.specs.Prelude.{◌≡◌, ℕ, List, Some, length, slice_get};
ghost use Rattle.std.specs.Option.{option_copied};
ghost use Rattle.vlog_tree.specs.declared.module.Module.{Module};
ghost use Rattle.vlog_tree.specs.declared.module.SourceFile.{SourceFile};
ghost use Rattle.scope_meaning.specs.Heads.{module_named};
ghost use Rattle.scope_meaning.specs.ScopeTrees.{modules};
ghost use Rattle.elab_modules.specs.Tables.{module_at};
ghost use Rattle.elab_modules.specs.Modules.{AreModules, GivesModules, IsFound};

use crate::table::{ModuleRow, ModuleTable, table_of};
use elab_overrides::Parameters;
use elab_types::ElabFault;
use std::alloc::Global;
use vlog_tree::{Module, SourceFile};

/// A module with its parameters, and its number among all modules of all files.
#[derive(Clone, Copy)]
pub struct FoundModule<'a> {
    pub number: usize,
    pub of: &'a Module,
    pub parameters: &'a Parameters,
}

/// The modules of all files, by number and by name.
#[derive(Drop)]
pub struct Modules<'a> {
    files: &'a [SourceFile],
    table: ModuleTable,
}

fn at<'a>(files: &'a [SourceFile], row: &ModuleRow) -> Option<&'a Module>
    ensures { option_copied result ≡ module_at files.now row.now.file row.now.index }
{
    match sqlite_items::at(files, row.file) {
        Some(file) => file.modules.get(row.index),
        None => None,
    }
}

impl<'a> Modules<'a> {
    /// The modules of these files, in their order; or why there are none: a name stands twice.
    pub fn new(alloc: Global, files: &'a [SourceFile]) -> Result<Modules<'a>, ElabFault>
        ensures { GivesModules files.now result }
    {
        match table_of(alloc, files) {
            Ok(table) => Ok(Modules { files, table }),
            Err(fault) => Err(fault),
        }
    }

    /// How many modules there are.
    pub fn count(&self) -> usize
        ensures { (files : List SourceFile) → AreModules files self.now → result ≡ length (modules files) }
    {
        self.table.rows.len()
    }

    /// The module with this number.
    pub fn get(&self, number: usize) -> Option<&'a Module>
        ensures { (files : List SourceFile) → AreModules files self.now → option_copied result ≡ slice_get (modules files) number }
    {
        match self.table.rows.get(number) {
            Some(row) => at(self.files, row),
            None => None,
        }
    }

    /// The module with this number, together with its parameters.
    fn found(&self, number: usize) -> Option<FoundModule<'_>>
        ensures { (files : List SourceFile) (m : Module) → AreModules files self.now → slice_get (modules files) number ≡ Some m
            → IsFound (Some (number, m)) result }
    {
        match self.table.rows.get(number) {
            Some(row) => match at(self.files, row) {
                Some(of) => Some(FoundModule {
                    number,
                    of,
                    parameters: &row.parameters,
                }),
                None => None,
            },
            None => None,
        }
    }

    /// The module of a name.
    pub fn find(&self, name: &[u8]) -> Option<FoundModule<'_>>
        ensures { (files : List SourceFile) → AreModules files self.now → IsFound (module_named (modules files) name.now) result }
    {
        match self.table.numbers.get(name) {
            Some(number) => self.found(*number),
            None => None,
        }
    }
}
