//! Repetitions.

use crate::items::{Moves, Numbers};
use half_grid::Point;

/// How a shape or a placement is repeated, in grid steps, one variant a kind. Dimensions are the numbers of copies, at
/// least 2, and each is stored less 2. Spaces and moves stay in the file.
#[derive(Debug)]
pub enum Rep<'f> {
    /// Kind 0: as the last repetition.
    Same,
    /// Kind 1: at `(a * x_space, b * y_space)`.
    Grid {
        x_dim: u64,
        y_dim: u64,
        x_space: u64,
        y_space: u64,
    },
    /// Kind 2: a row at this distance.
    Row {
        dim: u64,
        space: u64,
    },
    /// Kind 3: a column at this distance.
    Column {
        dim: u64,
        space: u64,
    },
    /// Kind 4: a row, the distances between copies one by one.
    RowSpaces {
        dim: u64,
        spaces: Numbers<'f>,
    },
    /// Kind 5: a row, each distance to be multiplied by the grid.
    RowOnGrid {
        dim: u64,
        grid: u64,
        spaces: Numbers<'f>,
    },
    /// Kind 6: a column, the distances between copies one by one.
    ColumnSpaces {
        dim: u64,
        spaces: Numbers<'f>,
    },
    /// Kind 7: a column, each distance to be multiplied by the grid.
    ColumnOnGrid {
        dim: u64,
        grid: u64,
        spaces: Numbers<'f>,
    },
    /// Kind 8: at `a * u + b * v`.
    Lattice {
        n_dim: u64,
        m_dim: u64,
        u: Point,
        v: Point,
    },
    /// Kind 9: at `a * u`.
    Line {
        dim: u64,
        u: Point,
    },
    /// Kind 10: the moves from copy to copy one by one.
    Moves {
        dim: u64,
        moves: Moves<'f>,
    },
    /// Kind 11: each move to be multiplied by the grid.
    MovesOnGrid {
        dim: u64,
        grid: u64,
        moves: Moves<'f>,
    },
}

// Written out, so that it is proved once here, and not again in each crate that lets one go.
impl<'f> Drop for Rep<'f> {
    fn drop(self) {
        match self {
            Rep::Same => (),
            Rep::Grid {
                x_dim: _,
                y_dim: _,
                x_space: _,
                y_space: _,
            } => (),
            Rep::Row { dim: _, space: _ } => (),
            Rep::Column { dim: _, space: _ } => (),
            Rep::RowSpaces { dim: _, spaces: _ } => (),
            Rep::RowOnGrid {
                dim: _,
                grid: _,
                spaces: _,
            } => (),
            Rep::ColumnSpaces { dim: _, spaces: _ } => (),
            Rep::ColumnOnGrid {
                dim: _,
                grid: _,
                spaces: _,
            } => (),
            Rep::Lattice {
                n_dim: _,
                m_dim: _,
                u: _,
                v: _,
            } => (),
            Rep::Line { dim: _, u: _ } => (),
            Rep::Moves { dim: _, moves: _ } => (),
            Rep::MovesOnGrid {
                dim: _,
                grid: _,
                moves: _,
            } => (),
        }
    }
}
