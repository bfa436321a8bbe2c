ghost use Rattle.std.specs.Prelude.{◌≡◌, ◌≤◌, length, IfOk};
ghost use Rattle.cycle_parts.specs.Raised.{none_raised};

use cov_types::NoMemory;
use std::alloc::Global;
use std::marker::Model;

/// The counters that the last run of a process raised, with room for those of any run of it.
#[derive(Drop)]
pub struct Raised {
    counters: Vec<u32>,
    room: usize,
}

impl Model for Raised {
    ghost use Rattle.std.specs.Prelude.{◌≤◌, vec_capacity};
    ghost use Rattle.cycle_parts.specs.Raised as seen;

    ghost Value = { seen.Raised };

    ghost view = { λ r. record { counters = r.counters.items; room = r.room } };

    ghost invariant = { λ r. r.room ≤ vec_capacity r.counters };
}

impl Raised {
    /// None yet, with room for so many.
    pub fn with_room(alloc: Global, room: usize) -> Result<Raised, NoMemory>
        ensures { IfOk result (λ r. r ≡ none_raised room) }
    {
        Ok(Raised {
            counters: Vec::with_capacity(alloc, room)?,
            room,
        })
    }

    /// Keeps these in place of those that are there. It takes no memory.
    pub fn keep(&mut self, counters: &[u32])
        requires { length counters.now ≤ self.old.room }
        ensures { self.new ≡ record self.old { counters = counters.now } }
    {
        self.counters.clear();
        match self.counters.extend_from_slice(counters) {
            Ok(()) => {}
            Err(_) => unreachable!(),
        }
    }

    /// The counters, in order of execution.
    pub fn counters(&self) -> &[u32]
        ensures { result.now ≡ self.now.counters }
    {
        self.counters.as_slice()
    }
}
