ghost use Rattle.std.specs.Prelude.{◌≡◌};
ghost use Rattle.flat_asked.specs.Answers as spec;

use flat_declared::DeclaredKind;
use flat_scopes::NameMeaning;
use scope_table::ScopeTable;

/// Whether a name that means this has a value.
pub(crate) fn has_value(meant: Option<NameMeaning>) -> bool
    ensures { result ≡ spec.has_value_by meant }
{
    match meant {
        Some(NameMeaning::Constant(_)) => true,
        Some(NameMeaning::Variable { .. }) => true,
        Some(NameMeaning::Genvar) => false,
        Some(NameMeaning::NoValue) => false,
        None => false,
    }
}

/// Whether a name means a variable that is in a table.
pub(crate) fn in_table(table: &ScopeTable<()>, name: &[u8], meant: Option<NameMeaning>) -> bool
    ensures { result ≡ spec.in_table table.now name.now meant }
{
    match meant {
        Some(NameMeaning::Variable { scope, kind: _ }) => table.contains(scope, name),
        Some(NameMeaning::Constant(_)) => false,
        Some(NameMeaning::Genvar) => false,
        Some(NameMeaning::NoValue) => false,
        None => false,
    }
}

/// Whether a process may write what is declared as this.
pub(crate) fn process_writes(kind: DeclaredKind) -> bool
    ensures { result ≡ spec.process_writes kind }
{
    match kind {
        DeclaredKind::OutputReg => true,
        DeclaredKind::Reg => true,
        DeclaredKind::Integer => true,
        DeclaredKind::Input => false,
        DeclaredKind::OutputWire => false,
        DeclaredKind::Wire => false,
        DeclaredKind::Constant => false,
        DeclaredKind::Genvar => false,
        DeclaredKind::ScopeName => false,
    }
}

/// Whether an assignment or a connection may.
pub(crate) fn assignment_writes(kind: DeclaredKind) -> bool
    ensures { result ≡ spec.assignment_writes kind }
{
    match kind {
        DeclaredKind::OutputWire => true,
        DeclaredKind::Wire => true,
        DeclaredKind::Input => false,
        DeclaredKind::OutputReg => false,
        DeclaredKind::Reg => false,
        DeclaredKind::Integer => false,
        DeclaredKind::Constant => false,
        DeclaredKind::Genvar => false,
        DeclaredKind::ScopeName => false,
    }
}

/// Whether a process may write what a name means; what has no value is refused before.
pub(crate) fn of_processes(meant: Option<NameMeaning>) -> bool
    ensures { result ≡ spec.may_write_by spec.process_writes meant }
{
    match meant {
        Some(NameMeaning::Variable { scope: _, kind }) => process_writes(kind),
        Some(NameMeaning::Constant(_)) => false,
        Some(NameMeaning::Genvar) => true,
        Some(NameMeaning::NoValue) => true,
        None => true,
    }
}

/// Whether an assignment or a connection may.
pub(crate) fn of_assignments(meant: Option<NameMeaning>) -> bool
    ensures { result ≡ spec.may_write_by spec.assignment_writes meant }
{
    match meant {
        Some(NameMeaning::Variable { scope: _, kind }) => assignment_writes(kind),
        Some(NameMeaning::Constant(_)) => false,
        Some(NameMeaning::Genvar) => true,
        Some(NameMeaning::NoValue) => true,
        None => true,
    }
}
