ghost use Rattle.std.specs.Prelude.{◌≡◌, All};
ghost use Rattle.flow_least.specs.Least.{IsLeastOf, lesser_of};
ghost use Rattle.flow_least.specs.Met.{HasMet, IsMarked};

use flow_marks::{Marks, Span};

/// The lesser of two variables; the one that there is, where one is missing.
pub fn lesser(a: Option<u32>, b: Option<u32>) -> Option<u32>
    ensures { result ≡ lesser_of a b }
{
    match a {
        None => b,
        Some(first) => match b {
            None => a,
            Some(second) => { if second < first { b } else { a } }
        },
    }
}

/// The least variable of a bit that lies in one of the spans and is in the set.
pub fn least_met(marks: &Marks, spans: &[Span]) -> Option<u32>
    requires { All (IsMarked marks.now.slots) spans.now }
    ensures { IsLeastOf (HasMet marks.now spans.now) result }
{
    let mut least = None;
    for span in spans {
        if marks.meets(*span) {
            least = lesser(least, Some(span.var));
        }
    }
    least
}
