//! Which steps may stand where.

ghost use Rattle.std.specs.Prelude.{◌≡◌, ◌||◌, nat_lt};
ghost use Rattle.cvd_text.specs.Steps.{counts, may_be_empty, may_stand, other, sets, speaks, spot, tests};

use cov_types::ProcessKind;

/// Whether a `set` may stand there.
pub(crate) fn may_set(kind: ProcessKind, deep: u32, before: usize) -> bool
    ensures { result ≡ may_stand kind (spot deep before) sets }
{
    match kind {
        ProcessKind::Assign => before == 0,
        ProcessKind::Cover => false,
        ProcessKind::Comb | ProcessKind::Clocked | ProcessKind::Initial => true,
    }
}

/// Whether an `if` may stand there.
pub(crate) fn may_test(kind: ProcessKind, deep: u32, before: usize) -> bool
    ensures { result ≡ may_stand kind (spot deep before) tests }
{
    match kind {
        ProcessKind::Assign => false,
        ProcessKind::Cover => deep == 1 && before == 0,
        ProcessKind::Comb | ProcessKind::Clocked | ProcessKind::Initial => true,
    }
}

/// Whether a `count` may stand there.
pub(crate) fn may_count(kind: ProcessKind, deep: u32, before: usize) -> bool
    ensures { result ≡ may_stand kind (spot deep before) counts }
{
    match kind {
        ProcessKind::Assign => false,
        ProcessKind::Cover => deep != 1,
        ProcessKind::Comb | ProcessKind::Clocked | ProcessKind::Initial => true,
    }
}

/// Whether a `later` or a `case` may stand there.
pub(crate) fn may_go(kind: ProcessKind, deep: u32, before: usize) -> bool
    ensures { result ≡ may_stand kind (spot deep before) other }
{
    match kind {
        ProcessKind::Assign | ProcessKind::Cover => false,
        ProcessKind::Comb | ProcessKind::Clocked | ProcessKind::Initial => true,
    }
}

/// Whether a `show`, a `finish` or a `stop` may stand there.
pub(crate) fn may_speak(kind: ProcessKind, deep: u32, before: usize) -> bool
    ensures { result ≡ may_stand kind (spot deep before) speaks }
{
    match kind {
        ProcessKind::Assign | ProcessKind::Cover | ProcessKind::Comb => false,
        ProcessKind::Clocked | ProcessKind::Initial => true,
    }
}

/// Whether a block may end behind so many steps.
pub(crate) fn may_end(kind: ProcessKind, deep: u32, count: usize) -> bool
    ensures { result ≡ (may_be_empty kind || nat_lt 1 deep || nat_lt 0 count) }
{
    match kind {
        ProcessKind::Assign | ProcessKind::Cover => deep > 1 || count > 0,
        ProcessKind::Comb | ProcessKind::Clocked | ProcessKind::Initial => true,
    }
}
