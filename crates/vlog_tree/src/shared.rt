ghost use Rattle.std.specs.Prelude.{◌≡◌, IfOk};

use cov_types::NoMemory;
use std::alloc::Global;
use std::marker::Model;
use std::rc::Rc;

/// A value with several owners, which contracts see as the value.
///
/// A tree has one where the text says once what holds for many: the range of a port also holds for
/// the names alone that follow it. So the memory of a tree stays in proportion to its text.
#[derive(Drop)]
pub struct Shared<T> {
    inner: Rc<T>,
}

impl<T> Model for Shared<T> {
    ghost Value = { T };

    ghost coded = { T.code };

    ghost view = { λ s. s.inner.value };
}

impl<T> Shared<T> {
    /// The value.
    pub fn get(&self) -> &T
        ensures { result.now ≡ self.now }
    {
        &self.inner
    }
}

impl<T: Drop> Shared<T> {
    /// A value with one owner.
    pub fn new(alloc: Global, value: T) -> Result<Shared<T>, NoMemory>
        ensures { IfOk result (λ shared. shared ≡ value) }
    {
        match Rc::new(alloc, value) {
            Ok(inner) => Ok(Shared { inner }),
            Err(_) => Err(NoMemory),
        }
    }

    /// One more owner of the same value. It takes no memory; `NoMemory` where no more owners can be
    /// counted.
    pub fn share(&self) -> Result<Shared<T>, NoMemory>
        ensures { IfOk result (λ shared. shared ≡ self.now) }
    {
        match self.inner.clone() {
            Ok(inner) => Ok(Shared { inner }),
            Err(_) => Err(NoMemory),
        }
    }
}
