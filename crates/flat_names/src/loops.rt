ghost use Rattle.std.specs.Prelude.{◌≡◌};
ghost use Rattle.scope_meaning.specs.Declared.{is_in};
ghost use Rattle.flat_names.specs.Loops.{loop_value, loop_names};

/// A loop variable, and its value in a pass: 32 bits, signed.
#[derive(Clone, Copy, Debug)]
pub struct LoopValue<'a> {
    pub name: &'a [u8],
    pub value: u32,
}

/// The value of a loop variable; of two of one name that of the inner loop, which comes later.
pub(crate) fn loop_value(loops: &[LoopValue<'_>], name: &[u8]) -> Option<u32>
    ensures { result ≡ loop_value loops.now name.now }
{
    let mut found = None;
    for one in loops {
        if name == one.name {
            found = Some(one.value);
        }
    }
    found
}

/// Whether one of some loops turns over a name.
pub(crate) fn turns_over(loops: &[LoopValue<'_>], name: &[u8]) -> bool
    ensures { result ≡ is_in name.now (loop_names loops.now) }
{
    match loop_value(loops, name) {
        Some(_) => true,
        None => false,
    }
}
