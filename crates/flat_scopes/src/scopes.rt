ghost use Rattle.std.specs.Prelude.{◌≡◌, ◌+◌, ◌++◌, ℕ, List, [], ◌∷◌, length, map, OnOk};
ghost use Rattle.scope_meaning.specs.Scope.{Frame, meaning_of};
ghost use Rattle.scope_meaning.specs.Constants.{Constant};
ghost use Rattle.elab_names.specs.Frames.{IsGenvar, IsValue};
ghost use Rattle.flat_declared.specs.Kinds.{seen};
ghost use Rattle.flat_scopes.specs.Frames.{AreFramesAt, AreOutside, Means, IsLast};
ghost use Rattle.flat_scopes.specs.Meanings.{meaning_by, in_scope, outside_by};

use crate::place::PlaceInScope;
use crate::scope::{NameMeaning, SeenScope};
use cov_types::NoMemory;
use elab_constants::ConstantValue;
use elab_names::PassGenvar;
use flat_declared::KindOfName;
use std::alloc::Global;

/// The scopes of a design by their numbers, as many as are entered.
#[derive(Drop)]
pub struct SeenScopes {
    scopes: Vec<SeenScope>,
}

/// What a name means at a place.
#[cycle(meant)]
fn meaning_at(scopes: &[SeenScope], at: PlaceInScope, name: &[u8]) -> Option<NameMeaning>
    ensures { result ≡ meaning_by scopes.now at name.now }
{
    match sqlite_items::at(scopes, at.scope as usize) {
        Some(scope) => return meaning_in(scopes, scope, at, name),
        None => return None,
    }
}

/// What a name means at a place in this scope.
#[cycle(meant)]
fn meaning_in(
    scopes: &[SeenScope],
    scope: &SeenScope,
    at: PlaceInScope,
    name: &[u8],
) -> Option<NameMeaning>
    ensures { result ≡ in_scope (λ outer. meaning_by scopes.now outer name.now) at name.now scope.now }
{
    match scope.said(at, name) {
        Some(meaning) => return Some(meaning),
        None => return meaning_outside(scopes, at.scope, scope.outer, name),
    }
}

/// What a name means outside a scope that stands at a place of the scope around.
#[cycle(meant)]
fn meaning_outside(
    scopes: &[SeenScope],
    scope: u32,
    outer: Option<PlaceInScope>,
    name: &[u8],
) -> Option<NameMeaning>
    ensures { result ≡ outside_by (λ around. meaning_by scopes.now around name.now) scope outer }
{
    match outer {
        Some(outer) => {
            if outer.scope < scope {
                return meaning_at(scopes, outer, name);
            }
            return None;
        }
        None => return None,
    }
}

impl SeenScopes {
    /// No scope. It takes no memory.
    pub fn new(alloc: Global) -> SeenScopes
        ensures { result.scopes.items ≡ [] }
    {
        SeenScopes {
            scopes: Vec::new(alloc),
        }
    }

    /// Enters a scope, whose number is how many were entered before, at a place of the scope around, if it has one.
    pub fn enter(
        &mut self,
        alloc: Global,
        declared: &[KindOfName],
        genvar: Option<PassGenvar>,
        outer: Option<PlaceInScope>,
    ) -> Result<(), NoMemory>
        ensures before { OnOk result ((at : PlaceInScope) (fs : List Frame) → AreFramesAt self.old.scopes.items at fs
            → AreFramesAt self.new.scopes.items at fs) }
        ensures entered { OnOk result ((f : Frame) (fs : List Frame) → f.number ≡ length self.old.scopes.items → map seen f.declared ≡ declared.now
            → IsGenvar f.genvar genvar → f.known ≡ [] → AreOutside self.old.scopes.items f.number outer fs
            → AreFramesAt self.new.scopes.items (record { scope = f.number; known = 0 }) (f ∷ fs)) }
    {
        let scope = SeenScope::new(alloc, declared, genvar, outer)?;
        self.scopes.push(scope)?;
        Ok(())
    }

    /// Makes a constant of a scope known behind all its constants so far. A scope that isn't entered is want of memory.
    pub fn make_known(
        &mut self,
        alloc: Global,
        scope: u32,
        name: &[u8],
        value: ConstantValue,
    ) -> Result<(), NoMemory>
        ensures before { OnOk result ((at : PlaceInScope) (fs : List Frame) → AreFramesAt self.old.scopes.items at fs
            → AreFramesAt self.new.scopes.items at fs) }
        ensures known { OnOk result ((f : Frame) (fs : List Frame) (k : ℕ) (c : Constant) → AreFramesAt self.old.scopes.items
            (record { scope = scope; known = k }) (f ∷ fs)
            → IsLast self.old.scopes.items scope k → c.name ≡ name.now → IsValue c value
            → AreFramesAt self.new.scopes.items (record { scope = scope; known = k + 1 }) (record f { known = f.known ++ c ∷ [] } ∷ fs)) }
    {
        let at = scope as usize;
        let count = self.scopes.len();
        if at >= count {
            return Err(NoMemory);
        }
        self.scopes[at].make_known(alloc, name, value)
    }

    /// What a name means at a place; none where it means nothing.
    pub fn meaning(&self, at: PlaceInScope, name: &[u8]) -> Option<NameMeaning>
        ensures value { result ≡ meaning_by self.now.scopes.items at name.now }
        ensures frames { (fs : List Frame) → AreFramesAt self.now.scopes.items at fs → Means (meaning_of fs name.now) result }
    {
        meaning_at(self.scopes.as_slice(), at, name)
    }
}
