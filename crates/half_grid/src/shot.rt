//! Legal trapezoids within reach.
ghost use Rattle.std.specs.Prelude.{◌≡◌, pos, ◌-ℤ◌, ◌+ℤ◌, ◌≤ℤ◌, ◌<ℤ◌, ◌↔◌, IsTrue, SomeIff};
ghost use Rattle.half_grid.specs.Lines.{x_on};
ghost use Rattle.half_grid.specs.Reach.{IsWithinReach};
ghost use Rattle.std.specs.Int.{int_min, int_max};
ghost use Rattle.half_grid.specs.Trapezoids.{IsInTrapezoid, FitsLimits, box_width};
ghost use Rattle.half_grid.specs.Sides.{IsSide, side_length};

use crate::plane::{Line, Tile};
use crate::rows::{first_strip, is_right_of, x_at, x_near};
use std::marker::Model;

/// No vertex of a shape that the program makes is further from 0 than this, in half units.
pub const REACH: i64 = 1 << 44;

/// The limits of a shot, in half units: of its height, and of the width of its box.
#[derive(Clone, Copy, Debug, PartialEq, Eq)]
pub struct Limits {
    pub height: i64,
    pub width: i64,
}

/// A legal trapezoid with horizontal parallel sides and all corners within reach: the rows from `y0` up to below
/// `y1`, between two lines. Contracts see it as the plain record of these four.
#[derive(Clone, Copy, Debug, PartialEq, Eq)]
pub struct Trap {
    y0: i64,
    y1: i64,
    left: Line,
    right: Line,
}

impl Model for Trap {
    ghost use Rattle.half_grid.specs.Trapezoids.{Trapezoid, IsShot, trapezoid};

    ghost Value = { Trapezoid };

    ghost view = { λ z. trapezoid z.y0 z.y1 z.left z.right };

    ghost invariant = { λ z. IsShot (trapezoid z.y0 z.y1 z.left z.right) };

    ghost inverse = { λ z. record { y0 = z.y0; y1 = z.y1; left = z.left; right = z.right } };
}

pub(crate) fn is_within_reach(z: i64) -> bool
    ensures { IsTrue result ↔ IsWithinReach z }
{
    -REACH <= z && z <= REACH
}

// The X of the line at y, where it is within reach.
pub(crate) fn x_within(line: Line, y: i64) -> Option<i64>
    requires { IsWithinReach y }
    ensures { SomeIff result (IsWithinReach (x_on line y)) (x_on line y) }
{
    if !is_within_reach(first_strip(line)) {
        return None;
    }
    let x = x_near(line, y);
    if is_within_reach(x) { Some(x) } else { None }
}

// The length of the side between the lines at y, where it is one.
fn side_length(left: Line, right: Line, y: i64) -> Option<i64>
    requires { IsWithinReach y }
    ensures { SomeIff result (IsSide left right y) (side_length left right y) }
{
    let left_end = x_within(left, y)?;
    let right_end = x_within(right, y)?;
    if right_end < left_end {
        return None;
    }
    Some(right_end - left_end)
}

impl Trap {
    ghost use Rattle.half_grid.specs.Trapezoids.{IsShot, trapezoid};

    /// The trapezoid of the rows from `y0` up to below `y1` between the two lines. None exactly where it isn't
    /// legal, or a corner is beyond reach.
    pub fn new(y0: i64, y1: i64, left: Line, right: Line) -> Option<Trap>
        ensures { SomeIff result (IsShot (trapezoid y0 y1 left right)) (trapezoid y0 y1 left right) }
    {
        if !is_within_reach(y0) || !is_within_reach(y1) || y1 <= y0 {
            return None;
        }
        let Some(bottom) = side_length(left, right, y0) else {
            return None;
        };
        let Some(top) = side_length(left, right, y1) else {
            return None;
        };
        if bottom + top <= 0 {
            return None;
        }
        Some(Trap {
            y0,
            y1,
            left,
            right,
        })
    }

    /// The same trapezoid where it is known to be legal and within reach, so that nothing is looked at again.
    #[inline(always)]
    pub fn of(y0: i64, y1: i64, left: Line, right: Line) -> Trap
        requires { IsShot (trapezoid y0 y1 left right) }
        ensures { result ≡ trapezoid y0 y1 left right }
    {
        Trap {
            y0,
            y1,
            left,
            right,
        }
    }

    /// Its lowest Y, which is its first row.
    #[inline]
    pub fn y0(&self) -> i64
        ensures value { result ≡ self.now.y0 }
        ensures shot { IsShot self.now }
    {
        self.y0
    }

    /// Its highest Y, which is the row after its last.
    #[inline]
    pub fn y1(&self) -> i64
        ensures value { result ≡ self.now.y1 }
        ensures shot { IsShot self.now }
    {
        self.y1
    }

    /// The line at its left.
    #[inline]
    pub fn left(&self) -> Line
        ensures value { result ≡ self.now.left }
        ensures shot { IsShot self.now }
    {
        self.left
    }

    /// The line at its right.
    #[inline]
    pub fn right(&self) -> Line
        ensures value { result ≡ self.now.right }
        ensures shot { IsShot self.now }
    {
        self.right
    }

    /// The X of its lower left corner.
    #[inline]
    pub fn bottom_left(&self) -> i64
        ensures value { result ≡ x_on self.now.left self.now.y0 }
        ensures reach { IsWithinReach result }
    {
        x_at(self.left(), self.y0())
    }

    /// The X of its lower right corner.
    #[inline]
    pub fn bottom_right(&self) -> i64
        ensures value { result ≡ x_on self.now.right self.now.y0 }
        ensures reach { IsWithinReach result }
    {
        x_at(self.right(), self.y0())
    }

    /// The X of its upper left corner.
    #[inline]
    pub fn top_left(&self) -> i64
        ensures value { result ≡ x_on self.now.left self.now.y1 }
        ensures reach { IsWithinReach result }
    {
        x_at(self.left(), self.y1())
    }

    /// The X of its upper right corner.
    #[inline]
    pub fn top_right(&self) -> i64
        ensures value { result ≡ x_on self.now.right self.now.y1 }
        ensures reach { IsWithinReach result }
    {
        x_at(self.right(), self.y1())
    }

    /// How many rows it has.
    #[inline]
    pub fn height(&self) -> i64
        ensures value { result ≡ self.now.y1 -ℤ self.now.y0 }
    {
        self.y1() - self.y0()
    }

    /// Its least X.
    pub fn least_x(&self) -> i64
        ensures value { result ≡ int_min (x_on self.now.left self.now.y0) (x_on self.now.left self.now.y1) }
        ensures reach { IsWithinReach result }
    {
        self.bottom_left().min(self.top_left())
    }

    /// Its greatest X.
    pub fn greatest_x(&self) -> i64
        ensures value { result ≡ int_max (x_on self.now.right self.now.y0) (x_on self.now.right self.now.y1) }
        ensures reach { IsWithinReach result }
    {
        self.bottom_right().max(self.top_right())
    }

    /// The width of its box: its greatest X less its least X.
    pub fn box_width(&self) -> i64
        ensures value { result ≡ box_width self.now }
    {
        self.greatest_x() - self.least_x()
    }
}

/// Whether the tile, which may lie anywhere, is in the trapezoid.
pub fn covers(trap: &Trap, tile: Tile) -> bool
    ensures { IsTrue result ↔ IsInTrapezoid trap.now tile }
{
    if tile.j < trap.y0() {
        return false;
    }
    if trap.y1() <= tile.j {
        return false;
    }
    if !is_within_reach(tile.i) {
        return false;
    }
    if !is_right_of(tile, trap.left()) {
        return false;
    }
    !is_right_of(tile, trap.right())
}

/// Whether the trapezoid's height and the width of its box are within the limits.
pub fn fits(trap: &Trap, limits: &Limits) -> bool
    ensures { IsTrue result ↔ FitsLimits limits.now.height limits.now.width trap.now }
{
    if limits.height < trap.height() {
        return false;
    }
    trap.box_width() <= limits.width
}
