/// A place between two items of a scope: the number of the scope, and how many of its constants are declared before.
///
/// The genvar of a pass is none of these constants.
#[derive(Clone, Copy, Debug, PartialEq, Eq)]
pub struct PlaceInScope {
    pub scope: u32,
    pub known: u32,
}
