ghost use Rattle.std.specs.Prelude.{◌+◌, ◌<◌, ◌^◌, IfOk, length};
ghost use Rattle.mark_numbers.specs.Numbers.{HaveNumbers};

use cov_types::{NoMemory, Rows};
use std::alloc::Global;

/// The numbers of marks: a place for each mark, and the number after the last.
#[derive(Debug, Drop)]
pub struct MarkNumbers {
    pub numbers: Rows<Option<u32>>,
    pub next: u32,
}

/// Gives each set mark a number of its own, in the order of the marks, from `first` on.
pub fn number_marks(alloc: Global, marks: &[bool], first: u32) -> Result<MarkNumbers, NoMemory>
    requires { first + length marks.now < 2 ^ 32 }
    ensures { IfOk result (λ r. HaveNumbers marks.now first r.next r.numbers) }
{
    let mut numbers = Rows::new(alloc);
    let mut next = first;
    for mark in marks {
        numbers.push(mark.then_some(next))?;
        next += u32::from(*mark);
    }
    Ok(MarkNumbers { numbers, next })
}
