//! Ranges of rows and of columns.
ghost use Rattle.std.specs.Prelude.{◌≡◌, SomeIff};

use std::marker::Model;

/// A range of rows: those from `y0` up to below `y1`, where `y0 <= y1`. Contracts see it as the plain record of the two.
#[derive(Clone, Copy, Debug, PartialEq, Eq)]
pub struct Window {
    y0: i64,
    y1: i64,
}

impl Model for Window {
    ghost use Rattle.half_grid.specs.Windows.{RowRange, IsWindow, row_range};

    ghost Value = { RowRange };

    ghost view = { λ w. row_range w.y0 w.y1 };

    ghost invariant = { λ w. IsWindow (row_range w.y0 w.y1) };

    ghost inverse = { λ w. record { y0 = w.y0; y1 = w.y1 } };
}

impl Window {
    ghost use Rattle.half_grid.specs.Windows.{IsWindow, row_range};

    /// The rows from `y0` up to below `y1`. None exactly where `y1` is below `y0`.
    pub fn new(y0: i64, y1: i64) -> Option<Window>
        ensures { SomeIff result (IsWindow (row_range y0 y1)) (row_range y0 y1) }
    {
        if y1 < y0 {
            return None;
        }
        Some(Window { y0, y1 })
    }

    /// Its first row, where it has one.
    #[inline]
    pub fn y0(&self) -> i64
        ensures value { result ≡ self.now.y0 }
        ensures window { IsWindow self.now }
    {
        self.y0
    }

    /// The row after its last.
    #[inline]
    pub fn y1(&self) -> i64
        ensures value { result ≡ self.now.y1 }
        ensures window { IsWindow self.now }
    {
        self.y1
    }
}

/// A rectangle: the columns from `x0` up to below `x1` and the rows from `y0` up to below `y1`.
#[derive(Clone, Copy, Debug, PartialEq, Eq)]
pub struct Frame {
    pub x0: i64,
    pub y0: i64,
    pub x1: i64,
    pub y1: i64,
}
