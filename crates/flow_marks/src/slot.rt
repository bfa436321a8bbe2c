ghost use Rattle.std.specs.Prelude.{IfOk};
ghost use Rattle.flow_marks.specs.Slots.{AreFew, IsLayout};

use cov_types::{NoMemory, Var};
use std::alloc::Global;

/// Where the bits and the columns of a variable stand among those of all, and how many they are. A column is one place
/// in all words.
#[derive(Clone, Copy, Debug)]
pub struct Slot {
    pub bit: usize,
    pub column: usize,
    pub words: u32,
    pub width: u8,
}

/// The slots of variables, one behind the other, and how many bits and columns they have.
pub struct Layout {
    pub slots: Vec<Slot>,
    pub bits: usize,
    pub columns: usize,
}

/// The layout of variables.
pub fn laid_out(alloc: Global, vars: &[Var]) -> Result<Layout, NoMemory>
    requires { AreFew vars.now }
    ensures { IfOk result (λ l. IsLayout vars.now l.slots.items l.bits l.columns) }
{
    let mut slots = Vec::new(alloc);
    let mut bits: usize = 0;
    let mut columns: usize = 0;
    for var in vars {
        let words = var.words;
        let width = var.width;
        slots.push(Slot {
            bit: bits,
            column: columns,
            words,
            width,
        })?;
        bits += words as usize * width as usize;
        columns += width as usize;
    }
    Ok(Layout {
        slots,
        bits,
        columns,
    })
}
