use crate::typed::{Index, Typed};
use cov_types::{ByteText, Rows};
use sqlite_items::Items;

/// What a `set` or `later` step writes.
#[derive(Drop)]
pub enum Target {
    /// `w VAR`
    Whole {
        var: u32,
    },
    /// `b VAR WIDTH LOW S E`: bits of a variable, from a position on.
    Part {
        var: u32,
        width: u8,
        at: Index,
    },
    /// `m VAR LOW S E`: a word of a variable.
    Word {
        var: u32,
        at: Index,
    },
    /// `q VAR LOW S E WIDTH LOW S E`: bits of a word.
    WordPart {
        var: u32,
        word: Index,
        width: u8,
        at: Index,
    },
}

/// What a `show` step prints. `short` prints no leading zeros or blanks.
#[derive(Drop)]
pub enum Piece {
    /// `t H2`
    Text(ByteText),
    /// `d S E`, `D S E`
    Dec {
        signed: bool,
        short: bool,
        value: Typed,
    },
    /// `h E`, `H E`
    Hex {
        short: bool,
        value: Typed,
    },
    /// `b E`, `B E`
    Bin {
        short: bool,
        value: Typed,
    },
}

/// `item H E`: a value that is compared at the ones of the mask.
#[derive(Drop)]
pub struct StepItem {
    pub mask: u128,
    pub value: Typed,
}

/// `arm M`: its items and its block.
#[cycle(step)]
#[derive(Drop)]
pub struct StepArm {
    pub items: Rows<StepItem>,
    pub body: Items<Step>,
}

/// A step of a process.
#[cycle(step)]
#[derive(Drop)]
pub enum Step {
    /// `set N TARGETS E`, the targets from the highest part: a blocking assignment.
    Set {
        targets: Rows<Target>,
        value: Typed,
    },
    /// `later N TARGETS E`: a nonblocking assignment.
    Later {
        targets: Rows<Target>,
        value: Typed,
    },
    /// `if E` and two blocks.
    If {
        test: Typed,
        yes: Items<Step>,
        no: Items<Step>,
    },
    /// `case N E`, its arms, and the block for no match.
    Case {
        on: Typed,
        arms: Items<StepArm>,
        rest: Items<Step>,
    },
    /// `show N PIECES`
    Show {
        pieces: Rows<Piece>,
    },
    /// `finish`
    Finish,
    /// `stop`
    Stop,
    /// `count COUNTER`
    Count {
        counter: u32,
    },
}
