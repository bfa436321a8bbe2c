use cov_types::{ByteText, LineRange, Place, Rows};

/// Which arm of a process it is.
#[derive(Clone, Copy, Debug, PartialEq, Eq)]
pub enum ArmComment {
    /// The body of an `always` or `initial`.
    Block,
    /// The arm that an `if` takes where its test holds.
    If,
    /// The other arm of an `if`, written or not.
    Else,
    /// A written arm of a `case`, its default among them.
    Case,
    /// A cover property: entered where its expression isn't 0.
    Cover,
    /// The body of an assignment, or what a `case` without default does where nothing matches. It is never a point.
    Nothing,
}

/// A copy of an arm of a process: one for each pass of the loops around it.
///
/// `process` and `scope` are numbers of the flat source's lists. `place` is where a point of the arm stands, and `reach` is
/// the place that decides whether it lies in a block that is switched off. `stops` says whether a `$stop` belongs to it
/// directly, and `lines` has its lines as ascending runs with gaps between them.
#[derive(Drop)]
pub struct ArmRow {
    pub process: u32,
    pub scope: u32,
    pub place: Place,
    pub reach: Place,
    pub comment: ArmComment,
    /// The label of a cover that has one.
    pub label: Option<ByteText>,
    pub stops: bool,
    pub lines: Rows<LineRange>,
}
