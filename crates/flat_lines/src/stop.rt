ghost use Rattle.std.specs.Prelude.{◌≡◌, ◌↔◌, true};
ghost use Rattle.std.specs.Option.{option_copied};
ghost use Rattle.flat_source_meaning.specs.SourceArms.{Arm, Stops};
ghost use Rattle.flat_lines.specs.Lines.{StopsIn, StopsAmong};

use vlog_tree::{Stmt, StmtKind};

#[cycle(statement_stops)]
fn has_stop(of: &Stmt) -> bool
    ensures { StopsIn of.now ↔ (result ≡ true) }
{
    match &of.what {
        StmtKind::Stop => true,
        StmtKind::Block { body, .. } => any_stops(body.as_slice()),
        StmtKind::For { body, .. } => has_stop(body.get()),
        _ => false,
    }
}

#[cycle(statement_stops)]
fn any_stops(parts: &[Stmt]) -> bool
    ensures { StopsAmong parts.now ↔ (result ≡ true) }
{
    for part in parts {
        if has_stop(part) {
            return true;
        }
    }
    false
}

/// Whether a `$stop` belongs directly to an arm that has this statement, if one is written.
pub fn stops(body: Option<&Stmt>) -> bool
    ensures { (a : Arm) → a.body ≡ option_copied body.entry → Stops a ↔ (result ≡ true) }
{
    match body {
        Some(body) => has_stop(body),
        None => false,
    }
}
