ghost use Rattle.std.specs.Prelude.{◌≡◌, ◌≤◌, ◌<◌, ◌+◌, ◌^◌, ◌↔◌, ℕ, All, IsTrue, IfOk, Contains, length, slice_index_or};
ghost use Rattle.circuit_run.specs.Kinds.{settles};
ghost use Rattle.design_meaning.specs.Processes.{kind_of};
ghost use Rattle.flow_graph.specs.Graph.{HasEdge};
ghost use Rattle.flow_spans.specs.Reads.{IsSpanOf};
ghost use Rattle.flow_uses.specs.Uses.{AreUsesOf, no_uses};
ghost use Rattle.flow_hubs.specs.Adding.{Adds};
ghost use Rattle.flow_edges.specs.Owning.{AreOwners};
ghost use Rattle.flow_edges.specs.Linking.{AreLinks, AreSized, Grows, MayLead, OfRows, OfSpan};

use crate::lists::note_all;
use crate::owners::{Owners, settles};
use crate::stretch::{Stretch, bits_of, columns_of};
use cov_types::{NoMemory, ProcessKind, Rows};
use design_tree::Design;
use flow_hubs::{Chains, no_rows, note};
use flow_uses::{Span, Uses};
use std::alloc::Global;

/// Whether what a process drives counts where another one, or the same, reads it.
fn may_lead(design: &Design, p: u32, q: u32) -> bool
    requires { p < length design.now.processes }
    ensures { IsTrue result ↔ MayLead design.now p q }
{
    if p != q {
        return true;
    }
    match design.processes.as_slice()[p as usize].kind {
        ProcessKind::Assign => true,
        _ => false,
    }
}

/// Puts a reader behind a process that drives what it reads.
fn link(design: &Design, p: u32, q: u32, next: &mut Vec<Rows<u32>>) -> Result<(), NoMemory>
    requires from { p < length design.now.processes }
    requires many { length next.old.items ≡ length design.now.processes }
    ensures { IfOk result (λ _. Adds next.old.items next.new.items (λ i x. (i ≡ p) × (x ≡ q) × MayLead design.now i x)) }
{
    if may_lead(design, p, q) {
        note(next, p as usize, q)?;
        return Ok(());
    }
    Ok(())
}

/// Puts a reader behind several processes.
fn link_each(
    design: &Design,
    from: &[u32],
    q: u32,
    next: &mut Vec<Rows<u32>>,
) -> Result<(), NoMemory>
    requires from { All (λ p. p < length design.now.processes) from.now }
    requires many { length next.old.items ≡ length design.now.processes }
    ensures { IfOk result (λ _. Adds next.old.items next.new.items (λ i x. Contains from.now i × (x ≡ q) × MayLead design.now i x)) }
{
    for p in from {
        link(design, *p, q, next)?;
    }
    Ok(())
}

/// Puts a reader behind the processes of several rows.
fn link_rows(
    alloc: Global,
    design: &Design,
    rows: &Chains,
    among: Stretch,
    q: u32,
    next: &mut Vec<Rows<u32>>,
) -> Result<(), NoMemory>
    requires order { among.from ≤ among.to }
    requires inside { among.to ≤ length rows.now }
    requires below { (i x : ℕ) → HasEdge rows.now i x → x < length design.now.processes }
    requires many { length next.old.items ≡ length design.now.processes }
    ensures { IfOk result (λ _. Adds next.old.items next.new.items (OfRows design.now rows.now among q)) }
{
    let mut row = Vec::new(alloc);
    for at in among.from..among.to {
        rows.read(at, &mut row)?;
        link_each(design, row.as_slice(), q, next)?;
    }
    Ok(())
}

/// Puts a reader of a span in one word behind the processes that drive a bit of it.
fn link_word(
    alloc: Global,
    design: &Design,
    owners: &Owners,
    span: Span,
    q: u32,
    next: &mut Vec<Rows<u32>>,
) -> Result<(), NoMemory>
    requires owners { AreOwners design.now owners.now }
    requires span { IsSpanOf design.now.vars span }
    requires one { span.word_end ≡ 1 + span.word }
    requires many { length next.old.items ≡ length design.now.processes }
    ensures { IfOk result (λ _. Adds next.old.items next.new.items (OfSpan design.now span q)) }
{
    let slots = owners.slots.as_slice();
    let bits = bits_of(slots, span);
    let columns = columns_of(slots, span);
    link_rows(alloc, design, &owners.bits, bits, q, next)?;
    link_rows(alloc, design, &owners.whole, columns, q, next)?;
    Ok(())
}

/// Which processes lead to others, and which read columns.
#[derive(Drop)]
pub(crate) struct Links {
    /// For each process those that read a bit at a constant word which it drives.
    pub(crate) next: Vec<Rows<u32>>,
    /// For each column those that read it in all words.
    pub(crate) readers: Chains,
}

/// Notes that a process reads a span.
fn link_span(
    alloc: Global,
    design: &Design,
    owners: &Owners,
    span: Span,
    q: u32,
    links: &mut Links,
) -> Result<(), NoMemory>
    requires owners { AreOwners design.now owners.now }
    requires span { IsSpanOf design.now.vars span }
    requires sized { AreSized design.now links.old }
    ensures { IfOk result (λ _. Grows design.now links.old links.new (λ x s. (x ≡ q) × (s ≡ span))) }
{
    if span.word_end == 1 + span.word {
        link_word(alloc, design, owners, span, q, &mut links.next)?;
        return Ok(());
    }
    let columns = columns_of(owners.slots.as_slice(), span);
    note_all(&mut links.readers, columns, q)?;
    Ok(())
}

/// Notes that a process reads several spans.
fn link_reads(
    alloc: Global,
    design: &Design,
    owners: &Owners,
    spans: &[Span],
    q: u32,
    links: &mut Links,
) -> Result<(), NoMemory>
    requires owners { AreOwners design.now owners.now }
    requires spans { All (IsSpanOf design.now.vars) spans.now }
    requires sized { AreSized design.now links.old }
    ensures { IfOk result (λ _. Grows design.now links.old links.new (λ x s. (x ≡ q) × Contains spans.now s)) }
{
    for span in spans {
        link_span(alloc, design, owners, *span, q, links)?;
    }
    Ok(())
}

/// Notes what a process reads: nothing where it doesn't settle.
fn link_process(
    alloc: Global,
    design: &Design,
    owners: &Owners,
    uses: &Uses,
    q: u32,
    links: &mut Links,
) -> Result<(), NoMemory>
    requires owners { AreOwners design.now owners.now }
    requires uses { AreUsesOf design.now q uses.now }
    requires to { q < length design.now.processes }
    requires sized { AreSized design.now links.old }
    ensures { IfOk result (λ _. Grows design.now links.old links.new (λ x s. (x ≡ q) × IsTrue (settles (kind_of design.now q)) × Contains uses.now.reads s)) }
{
    if settles(design.processes.as_slice()[q as usize].kind) {
        link_reads(alloc, design, owners, uses.reads.as_slice(), q, links)?;
        return Ok(());
    }
    Ok(())
}

/// For so many processes and columns, none of which leads to others and is read.
fn no_links(alloc: Global, processes: usize, columns: usize) -> Result<Links, NoMemory>
    ensures next { IfOk result (λ l. length l.next.items ≡ processes) }
    ensures readers { IfOk result (λ l. length l.readers ≡ columns) }
    ensures none { IfOk result (λ l. (i x : ℕ) → HasEdge l.next.items i x → ⊥) }
    ensures unread { IfOk result (λ l. (i x : ℕ) → HasEdge l.readers i x → ⊥) }
{
    let next = no_rows(alloc, processes)?;
    let readers = Chains::new(alloc, columns)?;
    Ok(Links { next, readers })
}

/// What the processes of a design read, put behind those that drive it.
pub(crate) fn links_of(
    alloc: Global,
    design: &Design,
    owners: &Owners,
    uses: &[Uses],
) -> Result<Links, NoMemory>
    requires owners { AreOwners design.now owners.now }
    requires many { length uses.now ≡ length design.now.processes }
    requires few { length design.now.processes < 2 ^ 32 }
    requires uses { (p : ℕ) → p < length design.now.processes → AreUsesOf design.now p (slice_index_or uses.now p no_uses) }
    ensures { IfOk result (AreLinks design.now uses.now) }
{
    let mut links = no_links(alloc, uses.len(), owners.columns.len())?;
    for q in 0..uses.len() {
        link_process(alloc, design, owners, &uses[q], q as u32, &mut links)?;
    }
    Ok(links)
}
