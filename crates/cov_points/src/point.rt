use cov_types::{ByteText, LineRange, Place, Rows};

/// What a coverage point counts (Verilator User's Guide, coverage analysis).
#[derive(Clone, Copy, Debug, PartialEq, Eq)]
pub enum PointKind {
    /// Entries of the body of an `always` or `initial`, or of a written arm of a `case`.
    Line,
    /// Entries of an arm of an `if`, written or not.
    Branch,
    /// Changes of a bit of a port, wire or reg.
    Toggle,
    /// Occurrences of a `cover property`.
    User,
}

/// A coverage point, over all scopes of its module text.
///
/// `module` is the module text: the module's name, with its parameters and their values where it has any. `lines` has the
/// lines of all its arms or bits as ascending runs with gaps between them. `hier` is the path of its scope, or of several
/// what their paths begin and end with in common, with `*` between.
#[derive(Debug, Drop)]
pub struct Point {
    pub place: Place,
    pub kind: PointKind,
    pub module: ByteText,
    pub comment: ByteText,
    pub lines: Rows<LineRange>,
    pub hier: ByteText,
}
