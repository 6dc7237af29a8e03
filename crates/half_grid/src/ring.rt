//! Quadrilaterals by their corners.
ghost use Rattle.std.specs.Prelude.{◌≡◌, pos};
ghost use Rattle.half_grid.specs.Trapezoids.{IsInTrapezoid};
ghost use Rattle.half_grid.specs.Winding.{winding};
ghost use Rattle.half_grid.specs.declared.plane.Tile.{Tile};

use crate::plane::Point;
use crate::shot::Trap;
use std::marker::Model;

/// A quadrilateral within reach, by its corners in the order of a closed point list whose winding is 1 at the tiles
/// that it covers and 0 elsewhere. Contracts see it as the plain record of the four corners.
#[derive(Clone, Copy, Debug, PartialEq, Eq)]
pub struct Quad {
    a: Point,
    b: Point,
    c: Point,
    d: Point,
}

impl Model for Quad {
    ghost use Rattle.half_grid.specs.Quads.{Corners, IsQuad, corners};

    ghost Value = { Corners };

    ghost view = { λ q. corners q.a q.b q.c q.d };

    ghost invariant = { λ q. IsQuad (corners q.a q.b q.c q.d) };

    ghost inverse = { λ q. record { a = q.a; b = q.b; c = q.c; d = q.d } };
}

impl Quad {
    ghost use Rattle.half_grid.specs.Quads.{IsQuad, corners, corners_of, ring_of};

    /// The quadrilateral with these corners. The caller knows that they are one: an image of a quadrilateral is.
    pub fn new(a: Point, b: Point, c: Point, d: Point) -> Quad
        requires { IsQuad (corners a b c d) }
        ensures { result ≡ corners a b c d }
    {
        Quad { a, b, c, d }
    }

    /// The quadrilateral of a trapezoid's corners, from the lower left one up and round.
    pub fn of(trap: &Trap) -> Quad
        ensures corners { result ≡ corners_of trap.now }
        ensures inside { (t : Tile) → IsInTrapezoid trap.now t → winding (ring_of result) t ≡ pos 1 }
        ensures outside { (t : Tile) → (IsInTrapezoid trap.now t → ⊥) → winding (ring_of result) t ≡ pos 0 }
    {
        let (bottom, top) = (trap.y0(), trap.y1());
        Quad::new(
            Point {
                x: trap.bottom_left(),
                y: bottom,
            },
            Point {
                x: trap.top_left(),
                y: top,
            },
            Point {
                x: trap.top_right(),
                y: top,
            },
            Point {
                x: trap.bottom_right(),
                y: bottom,
            },
        )
    }

    /// Its first corner.
    pub fn a(&self) -> Point
        ensures value { result ≡ self.now.a }
        ensures quad { IsQuad self.now }
    {
        self.a
    }

    /// Its second corner.
    pub fn b(&self) -> Point
        ensures value { result ≡ self.now.b }
        ensures quad { IsQuad self.now }
    {
        self.b
    }

    /// Its third corner.
    pub fn c(&self) -> Point
        ensures value { result ≡ self.now.c }
        ensures quad { IsQuad self.now }
    {
        self.c
    }

    /// Its fourth corner.
    pub fn d(&self) -> Point
        ensures value { result ≡ self.now.d }
        ensures quad { IsQuad self.now }
    {
        self.d
    }
}
