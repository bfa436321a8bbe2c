ghost use Rattle.std.specs.Prelude.{◌≡◌, ◌≤◌, ◌*◌, [], ◌∷◌, ◌++◌, ℤ, pos, List, int_le, IfSome, MatchOption, false};
ghost use Rattle.source_meaning.specs.Meaning.{Meaning, own, fixed_integer};
ghost use Rattle.source_meaning.specs.Joins.{copies};
ghost use Rattle.elab_constants.specs.Sized.{IsSized};
ghost use Rattle.elab_constants.specs.Reads.{IsJoined};

use crate::sized::SizedTerm;
use bit_values::Bits;

/// Values beside one another, the first with the highest bits.
#[derive(Clone, Copy, Debug)]
pub(crate) enum Joined {
    /// None as yet.
    Empty,
    /// All of them.
    Value(Bits),
    /// More than 128 bits.
    Past128,
}

/// With one more value behind the others.
pub(crate) fn with(so_far: Joined, part: &SizedTerm) -> Joined
    ensures { (ms : List Meaning) (m : Meaning) → IsJoined ms so_far → IsSized m part.now → IsJoined (ms ++ m ∷ []) result }
{
    let part = part.own();
    match so_far {
        Joined::Empty => Joined::Value(part),
        Joined::Value(high) => {
            if u16::from(high.width) + u16::from(part.width) > 128 {
                return Joined::Past128;
            }
            Joined::Value(bit_values::concat(high, part))
        }
        Joined::Past128 => Joined::Past128,
    }
}

/// The value as a count: none where it is below 1.
pub(crate) fn count_of(term: &SizedTerm) -> Option<u128>
    ensures { (m : Meaning) → IsSized m term.now
        → MatchOption result (int_le (pos 1) (fixed_integer m) ≡ false) (λ k. (1 ≤ k) × (fixed_integer m ≡ pos k)) }
{
    let own = term.own();
    if own.bits == 0 || (term.signed && own.bits >> (own.width - 1) == 1) {
        return None;
    }
    Some(own.bits)
}

/// A value so many times.
pub(crate) fn repeated(count: u8, of: Bits) -> Bits
    requires some { 1 ≤ count }
    requires most { count * of.width ≤ 128 }
    ensures width { result.width ≡ count * of.width }
    ensures value { result.bits ≡ copies count of.width of.bits }
{
    let mut all = of;
    for done in 1..count {
        all = bit_values::concat(all, of);
    }
    all
}
