ghost use Rattle.std.specs.Prelude.{◌≡◌, ◌<◌, ◌⊎◌, ℕ, true, false, All, Contains, IfSome, IfNone, length, slice_index_or};
ghost use Rattle.flow_hubs.specs.Hubs.{IsClear, IsShared};

/// Sets the marks of some vertices.
fn mark_each(marks: &mut Vec<bool>, vertices: &[u32], mark: bool)
    requires { All (λ p. p < length marks.old.items) vertices.now }
    ensures many { length marks.new.items ≡ length marks.old.items }
    ensures there { (p : ℕ) → Contains vertices.now p → slice_index_or marks.new.items p false ≡ mark }
    ensures only { (p : ℕ) → Contains vertices.now p ⊎ (slice_index_or marks.new.items p false ≡ slice_index_or marks.old.items p false) }
{
    for p in vertices {
        marks[*p as usize] = mark;
    }
}

/// Whether a vertex is marked and may not lead to itself.
fn is_apart(marks: &[bool], selfish: &[bool], p: u32) -> bool
    requires marks { p < length marks.now }
    requires selfish { p < length selfish.now }
    ensures marked { result ≡ true → slice_index_or marks.now p false ≡ true }
    ensures apart { result ≡ true → slice_index_or selfish.now p false ≡ false }
    ensures not { result ≡ false → slice_index_or marks.now p false ≡ true → slice_index_or selfish.now p false ≡ true }
{
    marks[p as usize] && !selfish[p as usize]
}

/// The first of some vertices that is marked and may not lead to itself.
fn first_apart(marks: &[bool], readers: &[u32], selfish: &[bool]) -> Option<u32>
    requires readers { All (λ p. p < length marks.now) readers.now }
    requires selfish { length selfish.now ≡ length marks.now }
    ensures reader { IfSome result (λ p. Contains readers.now p) }
    ensures marked { IfSome result (λ p. slice_index_or marks.now p false ≡ true) }
    ensures apart { IfSome result (λ p. slice_index_or selfish.now p false ≡ false) }
    ensures none { IfNone result ((p : ℕ) → Contains readers.now p → slice_index_or marks.now p false ≡ true → slice_index_or selfish.now p false ≡ true) }
{
    for p in readers {
        if is_apart(marks, selfish, *p) {
            return Some(*p);
        }
    }
    None
}

/// A vertex that both drives and reads, and may not lead to itself. The marks are clear before and after.
pub(crate) fn shared(
    marks: &mut Vec<bool>,
    drivers: &[u32],
    readers: &[u32],
    selfish: &[bool],
) -> Option<u32>
    requires clear { IsClear marks.old.items }
    requires drivers { All (λ p. p < length marks.old.items) drivers.now }
    requires readers { All (λ p. p < length marks.old.items) readers.now }
    requires selfish { length selfish.now ≡ length marks.old.items }
    ensures many { length marks.new.items ≡ length marks.old.items }
    ensures clear { IsClear marks.new.items }
    ensures some { IfSome result (IsShared drivers.now readers.now selfish.now) }
    ensures none { IfNone result ((p : ℕ) → IsShared drivers.now readers.now selfish.now p → ⊥) }
{
    mark_each(marks, drivers, true);
    let found = first_apart(marks.as_slice(), readers, selfish);
    mark_each(marks, drivers, false);
    found
}
