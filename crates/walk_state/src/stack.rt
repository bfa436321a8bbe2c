ghost use Rattle.std.specs.Prelude.{◌≡◌, [], ◌∷◌, reverse, OnOk, MatchOption};

use cov_types::NoMemory;
use std::alloc::Global;
use std::marker::Model;

/// Values of which the last one put is taken first. Contracts see them as a list, that one at its head.
#[derive(Drop)]
pub struct Stack<T> {
    items: Vec<T>,
}

impl<T> Model for Stack<T> {
    ghost use Rattle.std.specs.Prelude.{List, reverse};
    ghost use Rattle.std.specs.Coded.{coded_list};

    ghost Value = { List T };

    ghost coded = { coded_list T.code };

    ghost view = { λ stack. reverse stack.items.items };
}

impl<T> Stack<T> {
    /// Nothing. It takes no memory.
    pub fn new(alloc: Global) -> Stack<T>
        ensures { result ≡ [] }
    {
        Stack {
            items: Vec::new(alloc),
        }
    }

    /// Takes the value that was put last; none where nothing is left.
    pub fn pop(&mut self) -> Option<T>
        ensures { MatchOption result (self.old ≡ []) (λ value. self.old ≡ value ∷ self.new) }
    {
        if self.items.as_slice().is_empty() {
            return None;
        }
        self.items.pop()
    }
}

impl<T: Drop> Stack<T> {
    /// Puts a value. A refused one is dropped.
    pub fn push(&mut self, value: T) -> Result<(), NoMemory>
        ensures { OnOk result (self.new ≡ value ∷ self.old) }
    {
        match self.items.push(value) {
            Ok(()) => Ok(()),
            Err(_) => Err(NoMemory),
        }
    }
}
