ghost use Rattle.std.specs.Prelude.{◌≡◌, ℕ, ◌<◌, ◌&&◌, All, IsTrue, false, if◌then◌else◌, length, slice_index_or};
ghost use Rattle.flow_least.specs.Least.{IsLeastOf};
ghost use Rattle.flow_uses.specs.Uses.{has_var};

use flow_least::lesser;
use flow_marks::Span;

/// Sets the flags of the variables of spans to a value.
pub(crate) fn flag(flags: &mut [bool], spans: &[Span], value: bool)
    requires { All (λ s. s.var < length flags.old) spans.now }
    ensures { (v : ℕ) → slice_index_or flags.new v false ≡ (if has_var spans.now v then value else slice_index_or flags.old v false) }
{
    for span in spans {
        flags[span.var as usize] = value;
    }
}

/// The least variable of spans whose flag is set.
pub(crate) fn least_flagged(flags: &[bool], spans: &[Span]) -> Option<u32>
    requires { All (λ s. s.var < length flags.now) spans.now }
    ensures { IsLeastOf (λ v. IsTrue (has_var spans.now v && slice_index_or flags.now v false)) result }
{
    let mut least = None;
    for span in spans {
        if flags[span.var as usize] {
            least = lesser(least, Some(span.var));
        }
    }
    least
}

/// The least variable of spans.
pub(crate) fn least_var(spans: &[Span]) -> Option<u32>
    ensures { IsLeastOf (λ v. IsTrue (has_var spans.now v)) result }
{
    let mut least = None;
    for span in spans {
        least = lesser(least, Some(span.var));
    }
    least
}
