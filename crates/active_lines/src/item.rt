//! The lines of the list.
use half_grid::Line;

/// The windings of both operands at a tile.
#[derive(Clone, Copy, Debug, PartialEq, Eq)]
pub struct Windings {
    /// That of operand A.
    pub a: i64,
    /// That of operand B.
    pub b: i64,
}

/// A trapezoid that isn't closed yet. Its left line is the one at which it is kept.
#[derive(Clone, Copy, Debug, PartialEq, Eq)]
pub struct Opened {
    /// The line at its right.
    pub right: Line,
    /// Its lower Y.
    pub since: i64,
}

/// An active line.
#[derive(Clone, Copy, Debug, PartialEq, Eq)]
pub struct ActiveLine {
    /// The line itself.
    pub line: Line,
    /// The windings right of it, up to the next line.
    pub windings: Windings,
    /// The open trapezoid of which it is the left line, if there is one.
    pub opened: Option<Opened>,
}
