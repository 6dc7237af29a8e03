//! Runs of tiles in a row, and slabs of rows.
use half_grid::Line;

/// A maximal run of tiles in a row of a slab: those right of its left line and left of its right one.
#[derive(Clone, Copy, Debug, PartialEq, Eq)]
pub struct Run {
    /// The line at its left.
    pub left: Line,
    /// The line at its right.
    pub right: Line,
    /// The winding of operand A at its leftmost tile.
    pub a: i128,
    /// The winding of operand B at its leftmost tile.
    pub b: i128,
}

/// The rows from `y0` up to below `y1`, between two consecutive stops.
#[derive(Clone, Copy, Debug, PartialEq, Eq)]
pub struct Slab {
    /// The lower stop.
    pub y0: i64,
    /// The upper stop.
    pub y1: i64,
}
