//! Images of points, and one orientation after another.
ghost use Rattle.std.specs.Prelude.{◌≡◌, ◌^◌, ◌≤◌, ◌<◌, ◌*◌, IsTrue};
ghost use Rattle.layout_model.specs.Images.{IsOrient, moved, image_of};
ghost use Rattle.layout_model.specs.Layouts.{IsWithin};
ghost use Rattle.flat_walk.specs.Poses.{oriented, turns_after, flips_after, composed, IsPlain};

use half_grid::Point;
use layout_model::Orient;

const ORIGIN: Point = Point { x: 0, y: 0 };

/// The image of a point. The move may be longer than a point is far from 0, since a cell's own zero may lie far away
/// from its shapes.
#[inline(always)]
pub(crate) fn image(orient: Orient, at: Point, p: Point) -> Point
    requires orient { IsOrient orient }
    requires at { IsWithin (2 ^ 60) at }
    requires near { IsWithin (2 ^ 53) p }
    ensures { result ≡ image_of orient at p }
{
    if is_plain(orient) {
        return moved(at, p);
    }
    layout_model::image(orient, at, p)
}

/// Whether nothing is enlarged, mirrored or turned, as of most cells.
#[inline(always)]
pub(crate) fn is_plain(orient: Orient) -> bool
    ensures { IsTrue result → IsPlain orient }
{
    if orient.flip {
        return false;
    }
    if orient.turns != 0 {
        return false;
    }
    orient.mag == 1
}

/// The point enlarged, mirrored and turned.
pub(crate) fn oriented(orient: Orient, p: Point) -> Point
    requires orient { IsOrient orient }
    requires near { IsWithin (2 ^ 53) p }
    ensures value { result ≡ oriented orient p }
    ensures near { IsWithin (2 ^ 57) result }
{
    image(orient, ORIGIN, p)
}

/// The point moved.
pub(crate) fn moved(at: Point, p: Point) -> Point
    requires at { IsWithin (2 ^ 60) at }
    requires near { IsWithin (2 ^ 57) p }
    ensures { result ≡ moved at p }
{
    Point {
        x: p.x + at.x,
        y: p.y + at.y,
    }
}

fn turns_after(flip: bool, outer: u8, inner: u8) -> u8
    requires outer { outer < 4 }
    requires inner { inner < 4 }
    ensures { result ≡ turns_after flip outer inner }
{
    if flip {
        return (outer + (4 - inner)) % 4;
    }
    (outer + inner) % 4
}

fn flips_after(outer: bool, inner: bool) -> bool
    ensures { result ≡ flips_after outer inner }
{
    if outer { !inner } else { inner }
}

/// The orientation of a cell that is placed with `inner` in a cell that is placed with `outer`.
pub(crate) fn composed(outer: Orient, inner: Orient) -> Orient
    requires outer { IsOrient outer }
    requires inner { IsOrient inner }
    requires mild { outer.mag * inner.mag ≤ 16 }
    ensures value { result ≡ composed outer inner }
    ensures orient { IsOrient result }
{
    Orient {
        flip: flips_after(outer.flip, inner.flip),
        turns: turns_after(outer.flip, outer.turns, inner.turns),
        mag: outer.mag * inner.mag,
    }
}
