ghost use Rattle.elab_constants.specs.Names.{IsConstant};

use bit_values::Bits;

/// What a name stands for where it stands for a constant: a value, and how it is read.
#[derive(Clone, Copy, Debug)]
pub struct ConstantValue {
    pub value: Bits,
    pub signed: bool,
}

/// What names stand for at a place of a source.
pub trait Names {
    ghost use Rattle.std.specs.Prelude.{List, ℕ};
    ghost use Rattle.source_meaning.specs.Environment.{Environment};

    ghost environment: { Self → Environment };

    /// The constant that a name stands for; none where it stands for anything else, or for nothing.
    fn constant(&self, name: &[u8]) -> Option<ConstantValue>
        ensures { IsConstant ((environment self.now).look name.now) result };
}
