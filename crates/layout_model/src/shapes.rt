//! Shapes: closed outlines on a layer.
ghost use Rattle.std.specs.Prelude.{◌≡◌, ◌≤◌, ◌↔◌, ℕ, All, length, false, IsTrue, IsOk, IfOk, IfSome, IfNone, Err};
ghost use Rattle.half_grid.specs.Outlines.{IsClosed, IsOnGrid, HasGridEdges};
ghost use Rattle.half_grid.specs.Reach.{IsPointWithinReach};
ghost use Rattle.layout_model.specs.Slants.{IsFirstSlant};
ghost use Rattle.layout_model.specs.declared.shapes.ShapeBad.TheVariants.{Slant, NoMemory as Wanting};

use crate::offsets::Offsets;
use crate::pair::Pair;
use crate::points::Points;
use geo_stream::NoMemory;
use half_grid::{Point, line_through};
use std::alloc::Global;

/// A closed outline on a layer, which is there once at each of its offsets.
#[derive(Debug, Drop)]
pub struct Shape {
    /// Its layer and datatype.
    pub pair: Pair,
    /// Its outline; the last point is the first.
    pub points: Points,
    /// The moves at which it is there.
    pub offsets: Offsets,
    /// Whether it may not be enlarged.
    pub fixed: bool,
}

/// Why a shape can't be made.
#[derive(Clone, Copy, Debug, PartialEq, Eq)]
pub enum ShapeBad {
    /// The edge from the point of this number to the next isn't at a multiple of 45 degrees on the half grid. It is
    /// the first such edge.
    Slant(usize),
    /// Memory ran out.
    NoMemory,
}

impl From<NoMemory> for ShapeBad {
    ghost from_gives = { λ _ bad. bad ≡ Wanting };

    fn from(_wanting: NoMemory) -> ShapeBad {
        ShapeBad::NoMemory
    }
}

#[inline(always)]
fn is_on_grid(a: Point, b: Point) -> bool
    ensures { IsTrue result ↔ IsOnGrid (a, b) }
{
    a.y == b.y || line_through(a, b).is_some()
}

/// The number of the first edge that isn't on the grid.
#[inline(always)]
pub(crate) fn first_slant(points: &[Point]) -> Option<usize>
    ensures some { IfSome result (IsFirstSlant points.now) }
    ensures none { IfNone result (HasGridEdges points.now) }
{
    let Some((first, rest)) = points.split_first() else {
        return None;
    };
    let mut previous = *first;
    for (k, point) in rest.iter().enumerate() {
        if !is_on_grid(previous, *point) {
            return Some(k);
        }
        previous = *point;
    }
    None
}

/// Whether each edge of a list of points is level, upright or goes up or down by 45 degrees, on the half grid.
pub fn has_grid_edges(points: &[Point]) -> bool
    ensures { IsTrue result ↔ HasGridEdges points.now }
{
    if let Some(_slant) = first_slant(points) {
        return false;
    }
    true
}

impl Shape {
    /// The shape of this outline, which may be enlarged. A shape of up to nine points takes no memory. The list isn't
    /// empty, its last point is its first, and all points are within reach.
    #[inline(always)]
    pub fn new(
        alloc: Global,
        pair: Pair,
        points: &[Point],
        offsets: Offsets,
    ) -> Result<Shape, ShapeBad>
        requires closed { IsClosed points.now }
        requires reach { All IsPointWithinReach points.now }
        ensures pair { IfOk result (λ shape. shape.pair ≡ pair) }
        ensures points { IfOk result (λ shape. shape.points ≡ points.now) }
        ensures offsets { IfOk result (λ shape. shape.offsets ≡ offsets) }
        ensures free { IfOk result (λ shape. shape.fixed ≡ false) }
        ensures grid { IfOk result (λ _. HasGridEdges points.now) }
        ensures slant { (k : ℕ) → (result ≡ Err (Slant k)) ↔ IsFirstSlant points.now k }
        ensures few { length points.now ≤ 9 → HasGridEdges points.now → IsOk result }
    {
        if let Some(k) = first_slant(points) {
            return Err(ShapeBad::Slant(k));
        }
        let points = Points::new(alloc, points)?;
        Ok(Shape {
            pair,
            points,
            offsets,
            fixed: false,
        })
    }

    /// Whether it is another shape that shares its points with this one, both at the place 0 alone. False where that isn't
    /// known: at once where the points aren't shared, else after a pass over them.
    pub fn is_again(&self, other: &Shape) -> bool
        ensures { IsTrue result → self.now ≡ other.now }
    {
        if self.pair != other.pair {
            return false;
        }
        if self.fixed != other.fixed {
            return false;
        }
        if !self.offsets.is_origin() {
            return false;
        }
        if !other.offsets.is_origin() {
            return false;
        }
        self.points.is_again(&other.points)
    }
}
