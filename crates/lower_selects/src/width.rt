ghost use Rattle.std.specs.Prelude.{◌≤◌};

/// From 1 to 128 bits.
#[derive(Clone, Copy)]
pub struct Width {
    pub bits: u8,
    ghost some: { 1 ≤ bits },
    ghost few: { bits ≤ 128 },
}
