//! Pieces as a shape keeps them.
ghost use Rattle.std.specs.Prelude.{◌≡◌, IfOk, IfSome, IsOk, IsSome};
ghost use Rattle.half_grid.specs.Lines.{first_strip};
ghost use Rattle.half_grid.specs.Quads.{corners_of};
ghost use Rattle.half_grid.specs.Trapezoids.{IsShot};
ghost use Rattle.layout_model.specs.Kept.{IsShort};
ghost use Rattle.flat_walk.specs.ShortPieces.{kind_of, line_from, trapezoid_from, IsShortTrapezoid};

use half_grid::{Line, Point, Quad, Trap, x_at};
use std::marker::Model;

// The least number that takes more than 32 bits.
const LEAST_BEYOND: i64 = 1 << 31;

// Which way a line goes.
#[derive(Clone, Copy)]
enum Kind {
    Upright,
    Rising,
    Falling,
}

/// A piece whose rows and lines have numbers of 32 bits each, in half units, in 20 bytes, where a `Trap` takes 48: nearly all
/// pieces are so. Kinds stand last, for its size. Contracts see the trapezoid.
#[derive(Drop)]
pub(crate) struct ShortPiece {
    y0: i32,
    y1: i32,
    left: i32,
    right: i32,
    left_kind: Kind,
    right_kind: Kind,
}

impl Model for ShortPiece {
    ghost use Rattle.half_grid.specs.Trapezoids.{Trapezoid, IsShot};
    ghost use Rattle.flat_walk.specs.ShortPieces.{trapezoid_from};

    ghost Value = { Trapezoid };

    ghost view = { trapezoid_from };

    ghost invariant = { λ few. IsShot (trapezoid_from few) };
}

// A number in 32 bits, if they hold it.
fn short(number: i64) -> Option<i32>
    ensures same { IfSome result (λ few. few ≡ number) }
    ensures few { IsShort number → IsSome result }
{
    if number < -LEAST_BEYOND {
        return None;
    }
    if number >= LEAST_BEYOND {
        return None;
    }
    Some(number as i32)
}

// Which way the line goes.
fn kind_of(line: Line) -> Kind
    ensures { result ≡ kind_of line }
{
    match line {
        Line::Upright(_) => Kind::Upright,
        Line::Rising(_) => Kind::Rising,
        Line::Falling(_) => Kind::Falling,
    }
}

// The number of the first strip right of the line.
fn strip_of(line: Line) -> i64
    ensures { result ≡ first_strip line }
{
    match line {
        Line::Upright(number) => number,
        Line::Rising(number) => number,
        Line::Falling(number) => number,
    }
}

// The line that goes this way and has this number.
#[inline(always)]
fn line_from(kind: Kind, number: i32) -> Line
    ensures { result ≡ line_from kind number }
{
    match kind {
        Kind::Upright => Line::Upright(number as i64),
        Kind::Rising => Line::Rising(number as i64),
        Kind::Falling => Line::Falling(number as i64),
    }
}

impl ShortPiece {
    /// The piece in 20 bytes, if they hold it.
    pub(crate) fn of(trap: &Trap) -> Option<ShortPiece>
        ensures same { IfSome result (λ piece. piece ≡ trap.now) }
        ensures few { IsShortTrapezoid trap.now → IsSome result }
    {
        let y0 = short(trap.y0())?;
        let y1 = short(trap.y1())?;
        let left = short(strip_of(trap.left()))?;
        let right = short(strip_of(trap.right()))?;
        Some(ShortPiece {
            y0,
            y1,
            left,
            right,
            left_kind: kind_of(trap.left()),
            right_kind: kind_of(trap.right()),
        })
    }

    /// Its corners, from the lower left one up and round.
    #[inline(always)]
    pub(crate) fn quad(&self) -> Quad
        ensures { result ≡ corners_of self.now }
    {
        let left = line_from(self.left_kind, self.left);
        let right = line_from(self.right_kind, self.right);
        let (bottom, top) = (self.y0 as i64, self.y1 as i64);
        Quad::new(
            Point {
                x: x_at(left, bottom),
                y: bottom,
            },
            Point {
                x: x_at(left, top),
                y: top,
            },
            Point {
                x: x_at(right, top),
                y: top,
            },
            Point {
                x: x_at(right, bottom),
                y: bottom,
            },
        )
    }
}
