//! Intervals of an axis.
ghost use Rattle.std.specs.Prelude.{◌≡◌, ◌↔◌, IsTrue};
ghost use Rattle.layout_model.specs.Intervals.{along, IsBetween, IsInInterval};

use half_grid::Point;

/// An axis of the plane.
#[derive(Clone, Copy, PartialEq, Eq, Debug)]
pub enum Axis {
    /// To the right.
    X,
    /// Up.
    Y,
}

/// The points whose coordinate on the axis is from `low` up to `high`, both included, in half units.
#[derive(Clone, Copy, PartialEq, Eq, Debug)]
pub struct Interval {
    /// The axis.
    pub axis: Axis,
    /// The least coordinate.
    pub low: i64,
    /// The greatest coordinate.
    pub high: i64,
}

impl Axis {
    // The point's coordinate.
    pub(crate) fn of(self, p: Point) -> i64
        ensures { result ≡ along self p }
    {
        match self {
            Axis::X => p.x,
            Axis::Y => p.y,
        }
    }
}

impl Interval {
    // Whether the coordinate is from the least up to the greatest.
    pub(crate) fn spans(self, coordinate: i64) -> bool
        ensures { IsTrue result ↔ IsBetween self.low self.high coordinate }
    {
        if coordinate < self.low {
            return false;
        }
        coordinate <= self.high
    }

    // Whether the point is in it.
    pub(crate) fn has(self, p: Point) -> bool
        ensures { IsTrue result ↔ IsInInterval self p }
    {
        self.spans(self.axis.of(p))
    }
}
