//! A trapezoid that is kept.
ghost use Rattle.std.specs.Prelude.{◌≡◌};
ghost use Rattle.half_grid.specs.Trapezoids.{IsShot, trapezoid};

use half_grid::{Line, Trap};

/// A trapezoid that is kept, by its numbers alone: a generic function takes by value no stream that has a field of a type
/// with a model.
#[derive(Clone, Copy, Debug)]
pub(crate) struct Part {
    pub(crate) y0: i64,
    pub(crate) y1: i64,
    pub(crate) left: Line,
    pub(crate) right: Line,
    ghost shot: { IsShot (trapezoid y0 y1 left right) },
}

impl Part {
    ghost use Rattle.field_split.specs.Pieces.{shape_of};

    /// The trapezoid.
    pub(crate) fn trap(self) -> Trap
        ensures { result ≡ shape_of self }
    {
        Trap::of(self.y0, self.y1, self.left, self.right)
    }
}
