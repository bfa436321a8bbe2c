ghost use Rattle.std.specs.Prelude.{◌≡◌, ℕ, List, [], ◌∷◌, ◌++◌, length, map, IfOk, OnOk};
ghost use Rattle.scope_meaning.specs.Constants.{Constant};
ghost use Rattle.scope_meaning.specs.Scope.{Frame};
ghost use Rattle.scope_meaning.specs.Declared.{is_in};
ghost use Rattle.elab_names.specs.Meanings.{in_scope, by_kind, genvar_or};
ghost use Rattle.elab_names.specs.Frames.{IsFrame, IsGenvar, IsValue};
ghost use Rattle.elab_names.specs.DeclaredNames.{seen, IsTableOf};

use crate::declared::{DeclaredName, NameKind};
use cov_types::{ByteText, NoMemory};
use elab_constants::ConstantValue;
use name_table::NameTable;
use std::alloc::Global;

/// What a name means at a place: a constant, a genvar without a value, or anything else, which has no value there.
#[derive(Clone, Copy, Debug)]
pub enum NameMeaning {
    /// A parameter that is declared before, or the genvar of a pass around.
    Constant(ConstantValue),
    /// A genvar outside its loops.
    Genvar,
    /// A variable, an instance, a block or a function.
    Other,
}

/// The genvar of a pass of a generate loop, and its value.
#[derive(Drop)]
pub struct PassGenvar {
    pub name: ByteText,
    pub value: ConstantValue,
}

/// The names of an open scope: all that it declares, wherever they stand; the genvar of its pass; and its constants so far.
#[derive(Drop)]
pub struct ScopeNames {
    declared: NameTable<NameKind>,
    count: usize,
    genvar: Option<PassGenvar>,
    known: NameTable<ConstantValue>,
}

/// The genvar of a pass hides what its name means outside.
fn genvar_or(
    genvar: &Option<PassGenvar>,
    name: &[u8],
    outer: Option<NameMeaning>,
) -> Option<NameMeaning>
    ensures { result ≡ genvar_or genvar.now name.now outer }
{
    match genvar {
        Some(genvar) => {
            if name == genvar.name.as_slice() {
                return Some(NameMeaning::Constant(genvar.value));
            }
            outer
        }
        None => outer,
    }
}

fn table_of(alloc: Global, declared: &[DeclaredName]) -> Result<NameTable<NameKind>, NoMemory>
    ensures { IfOk result (λ table. IsTableOf declared.now table) }
{
    let mut table = NameTable::new(alloc);
    for name in declared {
        table.put(alloc, name.name.as_slice(), name.kind)?;
    }
    Ok(table)
}

impl ScopeNames {
    /// The names of a scope that declares these and has no constants yet but the genvar of its pass.
    pub fn new(
        alloc: Global,
        declared: &[DeclaredName],
        genvar: Option<PassGenvar>,
    ) -> Result<ScopeNames, NoMemory>
        ensures { IfOk result (λ names. (f : Frame) → map seen f.declared ≡ declared.now → IsGenvar f.genvar genvar → f.known ≡ [] → IsFrame f names) }
    {
        let count = declared.len();
        let declared = table_of(alloc, declared)?;
        Ok(ScopeNames {
            declared,
            count,
            genvar,
            known: NameTable::new(alloc),
        })
    }

    /// Makes a constant known; the first value of a name stays.
    pub fn make_known(
        &mut self,
        alloc: Global,
        name: &[u8],
        value: ConstantValue,
    ) -> Result<(), NoMemory>
        ensures { OnOk result ((f : Frame) (c : Constant) → IsFrame f self.old → c.name ≡ name.now → IsValue c value
            → IsFrame (record f { known = f.known ++ c ∷ [] }) self.new) }
    {
        self.known.put(alloc, name, value)?;
        Ok(())
    }

    /// Whether the scope declares a name.
    pub fn declares(&self, name: &[u8]) -> bool
        ensures { (f : Frame) → IsFrame f self.now → result ≡ is_in name.now (map (λ d. d.name) f.declared) }
    {
        self.declared.contains(name)
    }

    /// How many names the scope declares, those that stand twice among them.
    pub fn count(&self) -> usize
        ensures { (f : Frame) → IsFrame f self.now → result ≡ length f.declared }
    {
        self.count
    }

    /// What a name means in the scope, where that is what it means outside.
    pub(crate) fn meaning(&self, name: &[u8], outer: Option<NameMeaning>) -> Option<NameMeaning>
        ensures { result ≡ in_scope self.now name.now outer }
    {
        let outer = genvar_or(&self.genvar, name, outer);
        match self.declared.get(name) {
            Some(kind) => self.of_kind(*kind, name, outer),
            None => outer,
        }
    }

    fn of_kind(
        &self,
        kind: NameKind,
        name: &[u8],
        outer: Option<NameMeaning>,
    ) -> Option<NameMeaning>
        ensures { result ≡ by_kind self.now.known name.now outer kind }
    {
        match kind {
            NameKind::Constant => match self.known.get(name) {
                Some(value) => Some(NameMeaning::Constant(*value)),
                None => outer,
            },
            NameKind::Genvar => Some(NameMeaning::Genvar),
            NameKind::Other => Some(NameMeaning::Other),
        }
    }
}
