//! The ring of one grown trapezoid.
ghost use Rattle.std.specs.Prelude.{◌≡◌, ◌≤◌, All, length, pos};
ghost use Rattle.half_grid.specs.Nearness.{IsGrown};
ghost use Rattle.half_grid.specs.Outlines.{HasGridEdges, IsClosed};
ghost use Rattle.half_grid.specs.Reach.{IsPointWithinReach};
ghost use Rattle.half_grid.specs.Trapezoids.{IsInTrapezoid, IsShot};
ghost use Rattle.half_grid.specs.Winding.{winding};
ghost use Rattle.half_grid.specs.declared.plane.Tile.{Tile};
ghost use Rattle.square_size.specs.Rings.{IsSizing, HasRingWithinReach, grown_ring, lower_left, upper_left, lower_right, upper_right, left_bend, right_bend};

use half_grid::{Line, Point, Trap};
use smallvec::SmallVec;
use std::alloc::Global;

/// The half sides of the rectangle by which a shape grows.
#[derive(Clone, Copy)]
pub(crate) struct HalfSides {
    pub dx: i64,
    pub dy: i64,
}

pub(crate) fn lower_left(trap: &Trap, by: HalfSides) -> Point
    requires { IsSizing by.dx by.dy }
    ensures point { result ≡ lower_left by.dx by.dy trap.now }
    ensures shot { IsShot trap.now }
{
    Point {
        x: trap.bottom_left() - by.dx,
        y: trap.y0() - by.dy,
    }
}

pub(crate) fn upper_left(trap: &Trap, by: HalfSides) -> Point
    requires { IsSizing by.dx by.dy }
    ensures { result ≡ upper_left by.dx by.dy trap.now }
{
    Point {
        x: trap.top_left() - by.dx,
        y: trap.y1() + by.dy,
    }
}

pub(crate) fn lower_right(trap: &Trap, by: HalfSides) -> Point
    requires { IsSizing by.dx by.dy }
    ensures { result ≡ lower_right by.dx by.dy trap.now }
{
    Point {
        x: trap.bottom_right() + by.dx,
        y: trap.y0() - by.dy,
    }
}

pub(crate) fn upper_right(trap: &Trap, by: HalfSides) -> Point
    requires { IsSizing by.dx by.dy }
    ensures { result ≡ upper_right by.dx by.dy trap.now }
{
    Point {
        x: trap.top_right() + by.dx,
        y: trap.y1() + by.dy,
    }
}

// The point between the two pieces of the ring's left side.
pub(crate) fn left_bend(trap: &Trap, by: HalfSides) -> Point
    requires { IsSizing by.dx by.dy }
    ensures point { result ≡ left_bend by.dx by.dy trap.now.y0 trap.now.y1 trap.now.left }
    ensures shot { IsShot trap.now }
{
    match trap.left() {
        Line::Upright(_) => upper_left(trap, by),
        Line::Rising(_) => Point {
            x: trap.bottom_left() - by.dx,
            y: trap.y0() + by.dy,
        },
        Line::Falling(_) => Point {
            x: trap.top_left() - by.dx,
            y: trap.y1() - by.dy,
        },
    }
}

// The point between the two pieces of the ring's right side.
pub(crate) fn right_bend(trap: &Trap, by: HalfSides) -> Point
    requires { IsSizing by.dx by.dy }
    ensures { result ≡ right_bend by.dx by.dy trap.now.y0 trap.now.y1 trap.now.right }
{
    match trap.right() {
        Line::Upright(_) => upper_right(trap, by),
        Line::Rising(_) => Point {
            x: trap.top_right() + by.dx,
            y: trap.y1() - by.dy,
        },
        Line::Falling(_) => Point {
            x: trap.bottom_right() + by.dx,
            y: trap.y0() + by.dy,
        },
    }
}

fn ring(trap: &Trap, by: HalfSides) -> [Point; 7]
    requires { IsSizing by.dx by.dy }
    ensures points { result ≡ grown_ring by.dx by.dy trap.now }
    ensures shot { IsShot trap.now }
{
    let start = lower_left(trap, by);
    [
        start,
        left_bend(trap, by),
        upper_left(trap, by),
        upper_right(trap, by),
        right_bend(trap, by),
        lower_right(trap, by),
        start,
    ]
}

/// The closed ring of a trapezoid that grows by the rectangle of half sides `dx` and `dy`: its winding is 1 at each
/// tile that is near to some tile of the trapezoid, and 0 elsewhere. It has seven points, of which some may fall
/// together, and takes no memory.
///
/// `dx` and `dy` are 0 to 65,536, their sum is even, and the ring is within reach.
pub fn grown(alloc: Global, trap: &Trap, dx: i64, dy: i64) -> SmallVec<Point, 8>
    requires sizing { IsSizing dx dy }
    requires reach { HasRingWithinReach dx dy trap.now }
    ensures ring { result.items ≡ grown_ring dx dy trap.now }
    ensures inside { (t : Tile) → IsGrown dx dy (IsInTrapezoid trap.now) t → winding result.items t ≡ pos 1 }
    ensures outside { (t : Tile) → (IsGrown dx dy (IsInTrapezoid trap.now) t → ⊥) → winding result.items t ≡ pos 0 }
    ensures few { length result.items ≤ 7 }
    ensures inline { result.capacity ≡ 8 }
    ensures closed { IsClosed result.items }
    ensures grid { HasGridEdges result.items }
    ensures reach { All IsPointWithinReach result.items }
{
    SmallVec::from_slice(alloc, &ring(trap, HalfSides { dx, dy })).unwrap()
}
