use crate::position::Position;
use bit_values::Bits;

/// A value for some bits of a word, which may lie outside its variable.
#[derive(Clone, Copy, Debug)]
pub struct Update {
    pub var: u32,
    pub word: Position,
    pub low: Position,
    pub value: Bits,
}
