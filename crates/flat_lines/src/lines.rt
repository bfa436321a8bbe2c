ghost use Rattle.std.specs.Prelude.{◌≡◌, IfOk, OnOk};
ghost use Rattle.std.specs.Option.{option_copied};
ghost use Rattle.cov_types.specs.LineLists.{IsLineListOf};
ghost use Rattle.flat_source_meaning.specs.SourceArms.{Arm, HasLine};
ghost use Rattle.flat_lines.specs.Lines.{Gains, HasLineIn, HasLineAmong, HasLineOf};

use cov_types::{LineRange, NoMemory, Rows};
use line_sets::line_list;
use std::alloc::Global;
use vlog_tree::{Stmt, StmtKind};

/// Puts the lines of the statements that belong directly to one.
#[cycle(statement_lines)]
fn put_lines(lines: &mut Vec<u32>, of: &Stmt) -> Result<(), NoMemory>
    ensures { OnOk result (Gains lines.old.items lines.new.items (HasLineIn of.now)) }
{
    match &of.what {
        StmtKind::Empty => Ok(()),
        StmtKind::Block { body, .. } => {
            put_all(lines, body.as_slice())?;
            Ok(())
        }
        StmtKind::For { body, .. } => {
            lines.push(of.place.line)?;
            put_lines(lines, body.get())?;
            Ok(())
        }
        _ => {
            lines.push(of.place.line)?;
            Ok(())
        }
    }
}

#[cycle(statement_lines)]
fn put_all(lines: &mut Vec<u32>, parts: &[Stmt]) -> Result<(), NoMemory>
    ensures { OnOk result (Gains lines.old.items lines.new.items (HasLineAmong parts.now)) }
{
    for part in parts {
        put_lines(lines, part)?;
    }
    Ok(())
}

/// Puts those of the statement of an arm, if one is written.
fn put_body(lines: &mut Vec<u32>, body: Option<&Stmt>) -> Result<(), NoMemory>
    ensures { OnOk result (Gains lines.old.items lines.new.items (HasLineOf (option_copied body.entry))) }
{
    match body {
        Some(body) => {
            put_lines(lines, body)?;
            Ok(())
        }
        None => Ok(()),
    }
}

/// The lines of an arm that stands on this line, and has this statement if one is written.
pub fn arm_lines(
    alloc: Global,
    first: u32,
    body: Option<&Stmt>,
) -> Result<Rows<LineRange>, NoMemory>
    ensures { (a : Arm) → a.place.line ≡ first → a.body ≡ option_copied body.entry → IfOk result (IsLineListOf (HasLine a)) }
{
    let mut lines = Vec::new(alloc);
    lines.push(first)?;
    put_body(&mut lines, body)?;
    let all = line_list(alloc, lines)?;
    Ok(all)
}
