ghost use Rattle.std.specs.Prelude.{◌≡◌, ℕ, Bool, List, [], ◌∷◌, ◌++◌, length, Some, false, slice_get, IfOk};
ghost use Rattle.vlog_tree.specs.declared.module.Module.{Module};
ghost use Rattle.scope_meaning.specs.Declared.{is_in};
ghost use Rattle.scope_meaning.specs.Heads.{module_named};
ghost use Rattle.elab_modules.specs.Above.{AreAbove};

use cov_types::NoMemory;
use std::alloc::Global;

/// Which modules a place stands in, by their numbers.
#[derive(Drop)]
pub struct OpenModules {
    entered: Vec<bool>,
}

fn mark(entered: &mut Vec<bool>, number: usize, is_in: bool)
    ensures same { (b : Bool) → slice_get entered.old.items number ≡ Some b → slice_get entered.new.items number ≡ Some is_in }
    ensures others { (k : ℕ) → (k ≡ number → ⊥) → slice_get entered.new.items k ≡ slice_get entered.old.items k }
{
    if number < entered.len() {
        entered[number] = is_in;
    }
}

impl OpenModules {
    /// None of so many modules.
    pub fn none(alloc: Global, count: usize) -> Result<OpenModules, NoMemory>
        ensures { (design : List Module) → length design ≡ count → IfOk result (AreAbove design []) }
    {
        let mut entered = Vec::new(alloc);
        for number in 0..count {
            entered.push(false)?;
        }
        Ok(OpenModules { entered })
    }

    /// Whether the place stands in a module.
    pub fn contains(&self, number: usize) -> bool
        ensures { (design : List Module) (above : List (List ℕ)) (name : List ℕ) (m : Module) → AreAbove design above self.now
            → module_named design name ≡ Some (number, m) → result ≡ is_in name above }
    {
        match sqlite_items::at(self.entered.as_slice(), number) {
            Some(is_in) => *is_in,
            None => false,
        }
    }

    /// Enters a module, at the end of those around.
    pub fn enter(&mut self, number: usize)
        ensures { (design : List Module) (above : List (List ℕ)) (name : List ℕ) (m : Module) → AreAbove design above self.old
            → module_named design name ≡ Some (number, m) → AreAbove design (above ++ m.name ∷ []) self.new }
    {
        mark(&mut self.entered, number, true);
    }

    /// Leaves the module that was entered last, which stands in no other of its name.
    pub fn leave(&mut self, number: usize)
        ensures { (design : List Module) (above : List (List ℕ)) (name : List ℕ) (m : Module) → AreAbove design (above ++ m.name ∷ []) self.old
            → module_named design name ≡ Some (number, m) → is_in m.name above ≡ false → AreAbove design above self.new }
    {
        mark(&mut self.entered, number, false);
    }
}
