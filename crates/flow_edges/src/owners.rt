ghost use Rattle.std.specs.Prelude.{◌≡◌, ◌≤◌, ◌<◌, ◌⊎◌, ℕ, All, IsTrue, IfOk, Contains, length, slice_index_or};
ghost use Rattle.circuit_run.specs.Kinds.{settles};
ghost use Rattle.design_meaning.specs.Processes.{kind_of};
ghost use Rattle.design_meaning.specs.Valid.{IsValidDesign};
ghost use Rattle.flow_marks.specs.Slots.{AreFew, IsSpan};
ghost use Rattle.flow_uses.specs.Uses.{AreUsesOf, no_uses};
ghost use Rattle.flow_edges.specs.Owning.{AreOwners, IsBlank, IsTable, IsNamed, Notes};

use crate::lists::note_all;
use crate::stretch::{bits_of, columns_of};
use cov_types::{NoMemory, ProcessKind, Var};
use design_tree::Design;
use flow_hubs::Chains;
use flow_marks::{Layout, Slot, laid_out};
use flow_uses::{Span, Uses};
use std::alloc::Global;

/// Which processes drive the bits of some variables: rows of processes by the numbers of bits and of columns. A column is
/// one place in all words of a variable.
#[derive(Drop)]
pub(crate) struct Owners {
    pub(crate) slots: Vec<Slot>,
    /// For each bit those that name its word.
    pub(crate) bits: Chains,
    /// For each column those that name all words.
    pub(crate) whole: Chains,
    /// For each column those that drive a bit of it.
    pub(crate) columns: Chains,
}

/// The bits of some variables, none of which is driven.
fn no_owners(alloc: Global, vars: &[Var]) -> Result<Owners, NoMemory>
    requires { AreFew vars.now }
    ensures { IfOk result (IsBlank vars.now) }
{
    let Layout {
        slots,
        bits,
        columns,
    } = laid_out(alloc, vars)?;
    let bits = Chains::new(alloc, bits)?;
    let whole = Chains::new(alloc, columns)?;
    let columns = Chains::new(alloc, columns)?;
    Ok(Owners {
        slots,
        bits,
        whole,
        columns,
    })
}

/// Notes that a process drives the bits of a span.
fn own_span(owners: &mut Owners, span: Span, p: u32) -> Result<(), NoMemory>
    requires table { IsTable owners.old }
    requires span { IsSpan owners.old.slots.items span }
    ensures { IfOk result (λ _. Notes owners.old owners.new (λ x s. (x ≡ p) × (s ≡ span))) }
{
    let columns = columns_of(owners.slots.as_slice(), span);
    note_all(&mut owners.columns, columns, p)?;
    if span.word_end == 1 + span.word {
        let bits = bits_of(owners.slots.as_slice(), span);
        note_all(&mut owners.bits, bits, p)?;
        return Ok(());
    }
    note_all(&mut owners.whole, columns, p)?;
    Ok(())
}

/// Notes that a process drives the bits of several spans.
fn own_spans(owners: &mut Owners, spans: &[Span], p: u32) -> Result<(), NoMemory>
    requires table { IsTable owners.old }
    requires spans { All (IsSpan owners.old.slots.items) spans.now }
    ensures { IfOk result (λ _. Notes owners.old owners.new (λ x s. (x ≡ p) × Contains spans.now s)) }
{
    for span in spans {
        own_span(owners, *span, p)?;
    }
    Ok(())
}

/// Notes what a process drives.
fn own_targets(owners: &mut Owners, uses: &Uses, p: u32) -> Result<(), NoMemory>
    requires table { IsTable owners.old }
    requires sets { All (IsSpan owners.old.slots.items) uses.now.sets }
    requires defers { All (IsSpan owners.old.slots.items) uses.now.defers }
    ensures { IfOk result (λ _. Notes owners.old owners.new (λ x s. (x ≡ p) × IsNamed uses.now s)) }
{
    own_spans(owners, uses.sets.as_slice(), p)?;
    own_spans(owners, uses.defers.as_slice(), p)?;
    Ok(())
}

/// Whether a process of this kind holds all the time.
pub(crate) fn settles(kind: ProcessKind) -> bool
    ensures { result ≡ settles kind }
{
    match kind {
        ProcessKind::Assign => true,
        ProcessKind::Comb => true,
        _ => false,
    }
}

/// Notes what a process of this kind drives: nothing where it doesn't settle.
fn own_process(owners: &mut Owners, kind: ProcessKind, uses: &Uses, p: u32) -> Result<(), NoMemory>
    requires table { IsTable owners.old }
    requires sets { All (IsSpan owners.old.slots.items) uses.now.sets }
    requires defers { All (IsSpan owners.old.slots.items) uses.now.defers }
    ensures { IfOk result (λ _. Notes owners.old owners.new (λ x s. (x ≡ p) × IsTrue (settles kind) × IsNamed uses.now s)) }
{
    if settles(kind) {
        own_targets(owners, uses, p)?;
        return Ok(());
    }
    Ok(())
}

/// Which assignments and combinational processes drive the bits of a design.
pub(crate) fn owners_of(alloc: Global, design: &Design, uses: &[Uses]) -> Result<Owners, NoMemory>
    requires valid { IsValidDesign design.now }
    requires many { length uses.now ≡ length design.now.processes }
    requires uses { (p : ℕ) → p < length design.now.processes → AreUsesOf design.now p (slice_index_or uses.now p no_uses) }
    ensures { IfOk result (AreOwners design.now) }
{
    let mut owners = no_owners(alloc, design.vars.as_slice())?;
    let all = design.processes.as_slice();
    for p in 0..all.len() {
        own_process(&mut owners, all[p].kind, &uses[p], p as u32)?;
    }
    Ok(owners)
}
