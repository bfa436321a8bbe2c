use crate::point::Point;
use cov_types::Rows;

/// A bit of a variable, and the number of its point.
///
/// `var` is the number of the variable in the flat source, `word` that of the word from the lowest, and `bit` that of the bit
/// from the lowest.
#[derive(Clone, Copy, Debug, PartialEq, Eq)]
pub struct TogglePoint {
    pub var: u32,
    pub word: u32,
    pub bit: u8,
    pub point: u32,
}

/// The points of a design, each once.
///
/// `arm_points` has for each row of arms of the flat source the number of its point, or none. `toggles` has a row for each
/// bit that has a point, in the order of variables, words and bits.
#[derive(Debug, Drop)]
pub struct PointTable {
    pub points: Rows<Point>,
    pub arm_points: Rows<Option<u32>>,
    pub toggles: Rows<TogglePoint>,
}
