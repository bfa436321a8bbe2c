use crate::arm::ArmRow;
use crate::flat_statement::FlatStmt;
use cov_types::{ByteText, Place, ProcessKind, Rows, VarKind};

/// A variable of a scope (IEEE 1364-2005, net and variable declarations).
///
/// `place` is that of its name. The kind is `Input` for an input of the top alone, `Reg` for a reg or an integer, and else
/// `Wire`. `low` is the declared number of its lowest bit, which counts where it is a `vector`. `word_low` is the lowest
/// number of a word, which counts where it is a `memory`; one that is none has one word. `start` is what it holds at first.
#[derive(Drop)]
pub struct FlatVar {
    pub scope: u32,
    pub name: ByteText,
    pub place: Place,
    pub kind: VarKind,
    pub width: u8,
    pub low: u32,
    pub vector: bool,
    pub signed: bool,
    pub integer: bool,
    pub words: u32,
    pub word_low: u32,
    pub memory: bool,
    pub start: u128,
}

/// A process of a scope, by the place of its item.
///
/// The body of an assignment is one `Set`. That of a cover is one `If` on its expression with nothing in its arms, and its
/// place is that of the word `cover`.
#[derive(Drop)]
pub struct FlatProcess {
    pub scope: u32,
    pub place: Place,
    pub kind: ProcessKind,
    pub body: FlatStmt,
}

/// A design without scopes, names and loops: all its variables, processes and arms in the order of the walk.
///
/// `inputs` and `outputs` are the numbers of the top's ports, in their order, the clock not among them.
#[derive(Drop)]
pub struct FlatSource {
    pub vars: Rows<FlatVar>,
    pub processes: Rows<FlatProcess>,
    pub arms: Rows<ArmRow>,
    pub inputs: Rows<u32>,
    pub outputs: Rows<u32>,
}
