ghost use Rattle.std.specs.Prelude.{◌≤◌};

/// A size, from 1 to 128 bits, and a sign.
#[derive(Clone, Copy)]
pub(crate) struct FixedSize {
    pub width: u8,
    pub signed: bool,
    ghost at_least: { 1 ≤ width },
    ghost at_most: { width ≤ 128 },
}
