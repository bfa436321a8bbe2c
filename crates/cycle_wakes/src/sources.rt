ghost use Rattle.std.specs.Prelude.{◌≡◌, ℕ, ◌<◌, ◌^◌, ◌⊎◌, true, All, Contains, IfOk, IsTrue, length};
ghost use Rattle.cycle_wakes.specs.Readers.{SpansIn};
ghost use Rattle.cycle_wakes.specs.Sources.{HaveWhole, IsWhole, IsWritten, written_at};

use cov_types::{NoMemory, Rows, Var};
use flow_uses::{Span, Uses};
use std::alloc::Global;

/// Whether a span has all bits of its variable.
fn is_whole(span: &Span, var: &Var) -> bool
    ensures { result ≡ true → IsWhole span.now var.now }
{
    span.word == 0 && span.word_end == var.words && span.place == 0 && span.place_end == var.width
}

/// Notes the variables of which one of the spans has all bits.
fn note_whole(written: &mut [bool], spans: &[Span], vars: &[Var])
    requires spans { SpansIn (length vars.now) spans.now }
    requires many { length written.old ≡ length vars.now }
    ensures many { length written.new ≡ length vars.now }
    ensures whole { (v : ℕ) → IsTrue (written_at written.new v) → IsTrue (written_at written.old v) ⊎ HaveWhole vars.now spans.now v }
{
    for span in spans {
        let var = span.var as usize;
        if is_whole(span, &vars[var]) {
            written[var] = true;
        }
    }
}

/// The variables that are not written.
fn unwritten(alloc: Global, written: &[bool]) -> Result<Rows<u32>, NoMemory>
    requires { length written.now < 2 ^ 32 }
    ensures each { IfOk result (λ vars. (v : ℕ) → v < length written.now → IsTrue (written_at written.now v) ⊎ Contains vars v) }
    ensures within { IfOk result (All (λ v. v < length written.now)) }
{
    let mut vars = Rows::new(alloc);
    for v in 0..written.len() {
        if !written[v] {
            vars.push(v as u32)?;
        }
    }
    Ok(vars)
}

/// The variables of which no process of the order writes all bits at once, so that they may change beside its runs.
pub(crate) fn all_sources(
    alloc: Global,
    vars: &[Var],
    uses: &[Uses],
    order: &[u32],
) -> Result<Rows<u32>, NoMemory>
    requires few { length vars.now < 2 ^ 32 }
    requires order { All (λ p. p < length uses.now) order.now }
    requires spans { All (λ u. SpansIn (length vars.now) u.sets) uses.now }
    ensures each { IfOk result (λ sources. (v : ℕ) → v < length vars.now → Contains sources v ⊎ IsWritten vars.now uses.now order.now v) }
    ensures within { IfOk result (All (λ v. v < length vars.now)) }
{
    let mut written = vec![in alloc; false; vars.len()]?;
    for p in order {
        note_whole(
            written.as_mut_slice(),
            uses[*p as usize].sets.as_slice(),
            vars,
        );
    }
    unwritten(alloc, written.as_slice())
}
