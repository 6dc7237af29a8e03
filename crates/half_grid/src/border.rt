//! Edges that aren't horizontal, each with the operand that it belongs to.
ghost use Rattle.std.specs.Prelude.{◌≡◌, ◌↔◌, IsTrue, SomeIff};
ghost use Rattle.half_grid.specs.Lines.{x_on};
ghost use Rattle.half_grid.specs.Reach.{IsWithinReach};
ghost use Rattle.half_grid.specs.Ways.{way_of, line_by};

use crate::plane::Line;
use crate::rows::first_strip;
use crate::shot::{Trap, is_within_reach, x_within};
use std::marker::Model;

/// Which of the two operands of a set operation a thing belongs to.
#[derive(Clone, Copy, Debug, PartialEq, Eq)]
pub enum Operand {
    A,
    B,
}

/// Which way a line goes.
#[derive(Clone, Copy, Debug, PartialEq, Eq)]
enum Way {
    Upright,
    Rising,
    Falling,
}

// Which way the line goes.
#[inline]
fn way_of(line: Line) -> Way
    ensures { result ≡ way_of line }
{
    match line {
        Line::Upright(_) => Way::Upright,
        Line::Rising(_) => Way::Rising,
        Line::Falling(_) => Way::Falling,
    }
}

// The line that goes this way and has this number.
#[inline]
fn line_by(way: Way, number: i64) -> Line
    ensures { result ≡ line_by way number }
{
    match way {
        Way::Upright => Line::Upright(number),
        Way::Rising => Line::Rising(number),
        Way::Falling => Line::Falling(number),
    }
}

/// An edge that isn't horizontal: the rows from `y0` up to below `y1` that it spans, where `y0 < y1`, its line,
/// whether it goes up, and whose it is. Both its ends are within reach. Contracts see it as the plain record of these five.
///
/// The line is kept as its number and its way, since edges are kept and sorted by the million: so one takes 32 bytes,
/// where with a `Line`, which has 16, it would take 40.
#[derive(Clone, Copy, Debug, PartialEq, Eq)]
pub struct Edge {
    y0: i64,
    y1: i64,
    number: i64,
    way: Way,
    up: bool,
    operand: Operand,
}

impl Model for Edge {
    ghost use Rattle.half_grid.specs.Lines.{first_strip};
    ghost use Rattle.half_grid.specs.Ways.{way_of, line_by, number_back, way_back};
    ghost use Rattle.half_grid.specs.Edges.{EdgeParts, IsEdge, edge_parts};

    ghost Value = { EdgeParts };

    ghost view = { λ e. edge_parts e.y0 e.y1 (line_by e.way e.number) e.up e.operand };

    ghost invariant = { λ e. IsEdge (edge_parts e.y0 e.y1 (line_by e.way e.number) e.up e.operand) };

    ghost inverse = { λ e. record { y0 = e.y0; y1 = e.y1; number = first_strip e.line; way = way_of e.line; up = e.up; operand = e.operand } };

    ghost inverse_ok = { λ e h i. record {
      y0 = e.y0;
      y1 = e.y1;
      number = number_back e.way e.number i;
      way = way_back e.way e.number i;
      up = e.up;
      operand = e.operand;
    } };
}

// Whether the line's point at y is within reach.
fn has_end(line: Line, y: i64) -> bool
    requires { IsWithinReach y }
    ensures { IsTrue result ↔ IsWithinReach (x_on line y) }
{
    x_within(line, y).is_some()
}

impl Edge {
    ghost use Rattle.half_grid.specs.Edges.{IsEdge, edge_parts, left_edge, right_edge};

    /// The edge on this line over the rows from `y0` up to below `y1`. None exactly where there is no such row, or
    /// an end is beyond reach.
    pub fn new(y0: i64, y1: i64, line: Line, up: bool, operand: Operand) -> Option<Edge>
        ensures { SomeIff result (IsEdge (edge_parts y0 y1 line up operand)) (edge_parts y0 y1 line up operand) }
    {
        if !is_within_reach(y0) || !is_within_reach(y1) || y1 <= y0 {
            return None;
        }
        if !has_end(line, y0) || !has_end(line, y1) {
            return None;
        }
        Some(Edge {
            y0,
            y1,
            number: first_strip(line),
            way: way_of(line),
            up,
            operand,
        })
    }

    /// The same edge where it is known to have a row and ends within reach, so that nothing is looked at again.
    #[inline(always)]
    pub fn of(y0: i64, y1: i64, line: Line, up: bool, operand: Operand) -> Edge
        requires { IsEdge (edge_parts y0 y1 line up operand) }
        ensures { result ≡ edge_parts y0 y1 line up operand }
    {
        Edge {
            y0,
            y1,
            number: first_strip(line),
            way: way_of(line),
            up,
            operand,
        }
    }

    /// The edge along the left line of a trapezoid, which goes up.
    #[inline]
    pub fn left_of(trap: &Trap, operand: Operand) -> Edge
        ensures { result ≡ left_edge trap.now operand }
    {
        let line = trap.left();
        Edge {
            y0: trap.y0(),
            y1: trap.y1(),
            number: first_strip(line),
            way: way_of(line),
            up: true,
            operand,
        }
    }

    /// The edge along the right line of a trapezoid, which goes down.
    #[inline]
    pub fn right_of(trap: &Trap, operand: Operand) -> Edge
        ensures { result ≡ right_edge trap.now operand }
    {
        let line = trap.right();
        Edge {
            y0: trap.y0(),
            y1: trap.y1(),
            number: first_strip(line),
            way: way_of(line),
            up: false,
            operand,
        }
    }

    /// Its lower Y, which is the first row that it spans.
    #[inline]
    pub fn y0(&self) -> i64
        ensures value { result ≡ self.now.y0 }
        ensures edge { IsEdge self.now }
    {
        self.y0
    }

    /// Its higher Y, which is the row after the last that it spans.
    #[inline]
    pub fn y1(&self) -> i64
        ensures value { result ≡ self.now.y1 }
        ensures edge { IsEdge self.now }
    {
        self.y1
    }

    /// The line on which it lies.
    #[inline]
    pub fn line(&self) -> Line
        ensures value { result ≡ self.now.line }
        ensures edge { IsEdge self.now }
    {
        line_by(self.way, self.number)
    }

    /// Whether it goes up.
    #[inline]
    pub fn is_up(&self) -> bool
        ensures value { result ≡ self.now.up }
        ensures edge { IsEdge self.now }
    {
        self.up
    }

    /// The operand to which it belongs.
    #[inline]
    pub fn operand(&self) -> Operand
        ensures value { result ≡ self.now.operand }
        ensures edge { IsEdge self.now }
    {
        self.operand
    }
}
