//! The rectangles of a path's segments.
ghost use Rattle.std.specs.Prelude.{◌≡◌, ◌+ℤ◌, ◌-ℤ◌, IfOk};
ghost use Rattle.layout_model.specs.declared.directions.Direction.TheVariants.{East, West, North, South};
ghost use Rattle.layout_model.specs.Paths.{direction_of, rectangle_along, rectangle_of, rectangle_ring, rectangle_shape};
ghost use Rattle.layout_model.specs.PathBounds.{IsNearOnPath, IsNearStretch};

use crate::directions::{Direction, direction_to};
use crate::kept::KeptShape;
use crate::offsets::Offsets;
use crate::pair::Pair;
use crate::stretches::Stretch;
use geo_stream::NoMemory;
use half_grid::Point;
use std::alloc::Global;

/// A rectangle by its least and greatest coordinates.
#[derive(Clone, Copy)]
pub(crate) struct Rectangle {
    pub x0: i64,
    pub y0: i64,
    pub x1: i64,
    pub y1: i64,
}

fn less(at: i64, by: i64) -> i64
    requires at { IsNearOnPath at }
    requires by { IsNearOnPath by }
    ensures { result ≡ at -ℤ by }
{
    at - by
}

fn more(at: i64, by: i64) -> i64
    requires at { IsNearOnPath at }
    requires by { IsNearOnPath by }
    ensures { result ≡ at +ℤ by }
{
    at + by
}

fn eastward(s: Stretch) -> Rectangle
    requires { IsNearStretch s }
    ensures { result ≡ rectangle_along East s }
{
    Rectangle {
        x0: less(s.from.x, s.before),
        y0: less(s.from.y, s.half),
        x1: more(s.to.x, s.after),
        y1: more(s.from.y, s.half),
    }
}

fn westward(s: Stretch) -> Rectangle
    requires { IsNearStretch s }
    ensures { result ≡ rectangle_along West s }
{
    Rectangle {
        x0: less(s.to.x, s.after),
        y0: less(s.from.y, s.half),
        x1: more(s.from.x, s.before),
        y1: more(s.from.y, s.half),
    }
}

fn northward(s: Stretch) -> Rectangle
    requires { IsNearStretch s }
    ensures { result ≡ rectangle_along North s }
{
    Rectangle {
        x0: less(s.from.x, s.half),
        y0: less(s.from.y, s.before),
        x1: more(s.from.x, s.half),
        y1: more(s.to.y, s.after),
    }
}

fn southward(s: Stretch) -> Rectangle
    requires { IsNearStretch s }
    ensures { result ≡ rectangle_along South s }
{
    Rectangle {
        x0: less(s.from.x, s.half),
        y0: less(s.to.y, s.after),
        x1: more(s.from.x, s.half),
        y1: more(s.from.y, s.before),
    }
}

// The rectangle of a segment.
pub(crate) fn outline_of(s: Stretch) -> Rectangle
    requires { IsNearStretch s }
    ensures { result ≡ rectangle_of s }
{
    match direction_to(s.from, s.to) {
        Direction::East => eastward(s),
        Direction::West => westward(s),
        Direction::North => northward(s),
        Direction::South => southward(s),
        Direction::Still => eastward(s),
    }
}

// The closed outline of a rectangle, clockwise from its lower left corner.
pub(crate) fn ring(r: Rectangle) -> [Point; 5]
    ensures { result ≡ rectangle_ring r }
{
    [
        Point { x: r.x0, y: r.y0 },
        Point { x: r.x0, y: r.y1 },
        Point { x: r.x1, y: r.y1 },
        Point { x: r.x1, y: r.y0 },
        Point { x: r.x0, y: r.y0 },
    ]
}

// The shape of a segment of a path.
pub(crate) fn stretch_shape(
    alloc: Global,
    pair: Pair,
    s: Stretch,
    offsets: &Offsets,
    fixed: bool,
) -> Result<KeptShape, NoMemory>
    requires { IsNearStretch s }
    ensures { IfOk result (λ shape. shape ≡ rectangle_shape pair offsets.now fixed (rectangle_of s)) }
{
    let offsets = offsets.copy(alloc)?;
    KeptShape::with(alloc, pair, &ring(outline_of(s)), offsets, fixed)
}
