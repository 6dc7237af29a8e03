//! Least boxes of points.
ghost use Rattle.std.specs.Prelude.{◌≡◌, ◌≢◌, [], ◌∷◌};
ghost use Rattle.std.specs.Int.{int_min, int_max};
ghost use Rattle.layout_model.specs.Hulls.{IsLeastBoxOf};

use half_grid::{Frame, Point};

/// The box with these points on its sides.
pub(crate) fn box_between(left: Point, bottom: Point, right: Point, top: Point) -> Frame
    ensures x0 { result.x0 ≡ left.x }
    ensures y0 { result.y0 ≡ bottom.y }
    ensures x1 { result.x1 ≡ right.x }
    ensures y1 { result.y1 ≡ top.y }
{
    Frame {
        x0: left.x,
        y0: bottom.y,
        x1: right.x,
        y1: top.y,
    }
}

// The least box that has a box and a point.
fn box_with(hull: &Frame, p: &Point) -> Frame
    ensures x0 { result.x0 ≡ int_min hull.now.x0 p.now.x }
    ensures y0 { result.y0 ≡ int_min hull.now.y0 p.now.y }
    ensures x1 { result.x1 ≡ int_max hull.now.x1 p.now.x }
    ensures y1 { result.y1 ≡ int_max hull.now.y1 p.now.y }
{
    Frame {
        x0: hull.x0.min(p.x),
        y0: hull.y0.min(p.y),
        x1: hull.x1.max(p.x),
        y1: hull.y1.max(p.y),
    }
}

// The least box of a point and more.
fn box_from(first: Point, rest: &[Point]) -> Frame
    ensures { IsLeastBoxOf (first ∷ rest.now) result }
{
    let mut hull = box_between(first, first, first, first);
    for p in rest {
        hull = box_with(&hull, p);
    }
    hull
}

/// The least box of points, of which there is one at least.
pub fn box_of(points: &[Point]) -> Frame
    requires { points.now ≢ [] }
    ensures { IsLeastBoxOf points.now result }
{
    match points.split_first() {
        Some((first, rest)) => box_from(*first, rest),
        None => unreachable!(),
    }
}
