//! Trapezoids that may still grow upward.
use half_grid::{Line, Trap};
use std::collections::VecDeque;

/// A trapezoid that may still grow upward: its lowest Y and its two lines.
#[derive(Clone, Copy, Debug, PartialEq, Eq)]
pub struct Growing {
    pub y0: i64,
    pub left: Line,
    pub right: Line,
}

/// What comes of the leftmost growing trapezoid and the leftmost run at a stop.
#[derive(Clone, Copy, Debug, PartialEq, Eq)]
pub enum Meeting {
    /// The growing one ends.
    Ends,
    /// The run begins one.
    Begins,
    /// The growing one goes on in the run.
    GoesOn,
}

/// What a join holds between two slabs.
#[derive(Drop)]
pub struct Front {
    /// The trapezoids that may still grow, from left to right.
    pub growing: Vec<Growing>,
    /// Room for the next list of these.
    pub spare: Vec<Growing>,
    /// The trapezoids that ended, in the order in which they are given.
    pub waiting: VecDeque<Trap>,
    /// The upper stop of the last slab, once there was one.
    pub top: i64,
}
