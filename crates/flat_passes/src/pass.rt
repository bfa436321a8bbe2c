use bit_values::Bits;
use elab_constants::{ConstantValue, Names};

/// The names in a pass of a loop: its variable, with its value in the pass, and those that are seen around the loop.
#[derive(Drop)]
pub(crate) struct InPass<'a, N> {
    pub outer: &'a N,
    pub name: &'a [u8],
    pub value: u32,
}

impl<N: Names> Names for InPass<'_, N> {
    ghost use Rattle.source_meaning.specs.Environment.{in_pass};

    ghost environment = { λ p. in_pass (N.environment p.outer.now) p.name.now p.value };

    fn constant(&self, name: &[u8]) -> Option<ConstantValue> {
        if name == self.name {
            return Some(ConstantValue {
                value: Bits::new(32, u128::from(self.value)),
                signed: true,
            });
        }
        self.outer.constant(name)
    }
}
