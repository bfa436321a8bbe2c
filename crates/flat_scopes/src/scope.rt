ghost use Rattle.std.specs.Prelude.{◌≡◌, ℕ, List, [], ◌∷◌, ◌++◌, map, IfOk, OnOk};
ghost use Rattle.std.specs.Option.{option_copied};
ghost use Rattle.scope_meaning.specs.Constants.{Constant};
ghost use Rattle.scope_meaning.specs.Scope.{Frame};
ghost use Rattle.elab_names.specs.Frames.{IsGenvar, IsValue};
ghost use Rattle.flat_declared.specs.Kinds.{seen};
ghost use Rattle.flat_scopes.specs.Said as spec;
ghost use Rattle.flat_scopes.specs.Frames.{IsFrameAt, IsTableOf, HasOneMore};

use crate::place::PlaceInScope;
use cov_types::NoMemory;
use elab_constants::ConstantValue;
use elab_names::PassGenvar;
use flat_declared::{DeclaredKind, KindOfName};
use name_table::NameTable;
use std::alloc::Global;

/// What a name means at a place.
#[derive(Clone, Copy, Debug)]
pub enum NameMeaning {
    /// A parameter that is declared before, or the genvar of a pass around.
    Constant(ConstantValue),
    /// A genvar outside its loops.
    Genvar,
    /// The variable of the name in the scope of this number, and what it is declared as.
    Variable { scope: u32, kind: DeclaredKind },
    /// An instance or a generate block.
    NoValue,
}

/// A constant of a scope, and how many constants of the scope are declared before it.
#[derive(Clone, Copy, Debug)]
pub(crate) struct KnownConstant {
    pub(crate) before: u32,
    pub(crate) value: ConstantValue,
}

/// A scope of a design: the names that it declares, the genvar of its pass, its constants and how many they are, and the
/// place where it stands in the scope around, unless it is that of a module.
#[derive(Drop)]
pub struct SeenScope {
    pub(crate) declared: NameTable<DeclaredKind>,
    pub(crate) genvar: Option<PassGenvar>,
    pub(crate) known: NameTable<KnownConstant>,
    pub(crate) count: u32,
    pub(crate) outer: Option<PlaceInScope>,
}

/// The genvar of a pass, where the name is its.
fn genvar_said(genvar: &Option<PassGenvar>, name: &[u8]) -> Option<NameMeaning>
    ensures { result ≡ spec.genvar_said genvar.now name.now }
{
    match genvar {
        Some(genvar) => {
            if name == genvar.name.as_slice() {
                return Some(NameMeaning::Constant(genvar.value));
            }
            None
        }
        None => None,
    }
}

/// The constant of a name, where it is one of the first so many.
fn visible(of: Option<&KnownConstant>, known: u32) -> Option<ConstantValue>
    ensures { result ≡ spec.visible known (option_copied of.entry) }
{
    match of {
        Some(of) => {
            if of.before < known {
                return Some(of.value);
            }
            None
        }
        None => None,
    }
}

fn table_of(alloc: Global, declared: &[KindOfName]) -> Result<NameTable<DeclaredKind>, NoMemory>
    ensures { IfOk result (λ table. IsTableOf declared.now table) }
{
    let mut table = NameTable::new(alloc);
    for name in declared {
        table.put(alloc, name.name.as_slice(), name.kind)?;
    }
    Ok(table)
}

impl SeenScope {
    /// A scope that declares these names and has no constants yet but the genvar of its pass.
    pub(crate) fn new(
        alloc: Global,
        declared: &[KindOfName],
        genvar: Option<PassGenvar>,
        outer: Option<PlaceInScope>,
    ) -> Result<SeenScope, NoMemory>
        ensures frame { IfOk result (λ scope. (f : Frame) (number : ℕ) → f.number ≡ number → map seen f.declared ≡ declared.now → IsGenvar f.genvar genvar
            → f.known ≡ [] → IsFrameAt f scope (record { scope = number; known = 0 })) }
        ensures outer { IfOk result (λ scope. scope.outer ≡ outer) }
    {
        let declared = table_of(alloc, declared)?;
        Ok(SeenScope {
            declared,
            genvar,
            known: NameTable::new(alloc),
            count: 0,
            outer,
        })
    }

    /// Makes one more constant known, behind all others; the first value of a name stays.
    pub(crate) fn make_known(
        &mut self,
        alloc: Global,
        name: &[u8],
        value: ConstantValue,
    ) -> Result<(), NoMemory>
        ensures { OnOk result (HasOneMore name.now value self.old self.new) }
    {
        let Some(count) = self.count.checked_add(1) else {
            return Err(NoMemory);
        };
        let before = self.count;
        self.known
            .put(alloc, name, KnownConstant { before, value })?;
        self.count = count;
        Ok(())
    }

    /// What a name means in the scope itself, seen from a place; none where it is looked for outside.
    pub(crate) fn said(&self, at: PlaceInScope, name: &[u8]) -> Option<NameMeaning>
        ensures { result ≡ spec.said self.now at name.now }
    {
        match self.declared.get(name) {
            Some(kind) => self.said_of(at, *kind, name),
            None => genvar_said(&self.genvar, name),
        }
    }

    fn said_of(&self, at: PlaceInScope, kind: DeclaredKind, name: &[u8]) -> Option<NameMeaning>
        ensures { result ≡ spec.by_kind self.now at name.now kind }
    {
        match kind {
            DeclaredKind::Constant => match visible(self.known.get(name), at.known) {
                Some(value) => Some(NameMeaning::Constant(value)),
                None => genvar_said(&self.genvar, name),
            },
            DeclaredKind::Genvar => Some(NameMeaning::Genvar),
            DeclaredKind::ScopeName => Some(NameMeaning::NoValue),
            _ => Some(NameMeaning::Variable {
                scope: at.scope,
                kind,
            }),
        }
    }
}
