/// What an arm of a design is.
#[derive(Clone, Copy, Debug, PartialEq, Eq)]
pub enum ArmRow {
    /// The body of an `always` or `initial`.
    Body,
    /// The one arm of an assignment, which is never entered.
    Assignment,
    /// The one arm of a cover.
    Cover,
    /// The yes arm of an `if`.
    Yes,
    /// The no arm of an `if`: the numbers of the arm around the `if` and of its yes arm.
    No { around: usize, yes: usize },
    /// An arm of a `case` with items.
    Listed,
    /// The block for no match of a `case`, with steps or without.
    NoMatch { written: bool },
}
