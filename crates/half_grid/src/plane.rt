//! The points, tiles and lines of the plane.
ghost use Rattle.std.specs.Prelude.{◌≡◌, ◌+ℤ◌, ◌-ℤ◌};

use crate::sums::{difference, sum};

/// A point of the plane, in half units.
#[derive(Clone, Copy, Debug, Default, PartialEq, Eq, Hash)]
pub struct Point {
    /// How far it lies to the right of the origin.
    pub x: i64,
    /// How far it lies above the origin.
    pub y: i64,
}

impl Point {
    /// `X + Y`, which is the same at all points of a line that goes up to the left.
    pub fn sum(self) -> i128
        ensures { result ≡ self.x +ℤ self.y }
    {
        sum(self.x, self.y)
    }

    /// `X - Y`, which is the same at all points of a line that goes up to the right.
    pub fn difference(self) -> i128
        ensures { result ≡ self.x -ℤ self.y }
    {
        difference(self.x, self.y)
    }
}

/// Which of the two triangles of a cell.
#[derive(Clone, Copy, Debug, PartialEq, Eq)]
pub enum Side {
    Left,
    Right,
}

/// One triangle of the half grid. The cell is the square from `(i, j)` to `(i + 1, j + 1)`, and its one
/// diagonal cuts it in two: upward to the right where `i + j` is even, downward to the right elsewhere.
#[derive(Clone, Copy, Debug, PartialEq, Eq)]
pub struct Tile {
    /// The cell's column.
    pub i: i64,
    /// The cell's row.
    pub j: i64,
    /// The side of the cell's diagonal.
    pub side: Side,
}

/// The four strips in which a tile lies: its column `i`, its row `j`, the strip `2p <= X + Y <= 2p + 2`
/// and the strip `2q <= X - Y <= 2q + 2`.
#[derive(Clone, Copy, Debug, PartialEq, Eq)]
pub struct Strips {
    pub i: i64,
    pub j: i64,
    pub p: i64,
    pub q: i64,
}

/// A line on which an edge that isn't horizontal may lie.
#[derive(Clone, Copy, Debug, PartialEq, Eq)]
pub enum Line {
    /// The line `X = c`.
    Upright(i64),
    /// The line `X - Y = 2c`, which goes up to the right.
    Rising(i64),
    /// The line `X + Y = 2c`, which goes up to the left.
    Falling(i64),
}
