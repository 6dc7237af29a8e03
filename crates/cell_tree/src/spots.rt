//! Boxes round what placements show.
ghost use Rattle.std.specs.Prelude.{◌≡◌, ◌^◌, ℕ, true, slice_get, Some};
ghost use Rattle.half_grid.specs.declared.plane.Point.{Point as APoint};
ghost use Rattle.layout_model.specs.Hulls.{IsInBox};
ghost use Rattle.layout_model.specs.Images.{image_of, moved};
ghost use Rattle.layout_model.specs.Layouts.{IsPlacementOnGrid, IsWithin};
ghost use Rattle.cell_tree.specs.Boxes.{IsBoxUpTo};

use crate::boxes::{oriented, summed};
use crate::hulls::moves_of;
use half_grid::Frame;
use layout_model::Placement;

// No vertex of a reachable cell is farther from 0.
const FAR: i64 = 1 << 53;

/// The box of all points that a reachable cell may have.
pub(crate) fn wide() -> Frame
    ensures near { IsBoxUpTo (2 ^ 53) result }
    ensures around { (p : APoint) → IsWithin (2 ^ 53) p → IsInBox result p }
{
    Frame {
        x0: -FAR,
        y0: -FAR,
        x1: FAR,
        y1: FAR,
    }
}

fn is_low_near(a: Frame) -> bool
    ensures { result ≡ true → IsWithin (2 ^ 53) (record { x = a.x0; y = a.y0 }) }
{
    if a.x0 < -FAR {
        return false;
    }
    if FAR < a.x0 {
        return false;
    }
    if a.y0 < -FAR {
        return false;
    }
    a.y0 <= FAR
}

fn is_high_near(a: Frame) -> bool
    ensures { result ≡ true → IsWithin (2 ^ 53) (record { x = a.x1; y = a.y1 }) }
{
    if a.x1 < -FAR {
        return false;
    }
    if FAR < a.x1 {
        return false;
    }
    if a.y1 < -FAR {
        return false;
    }
    a.y1 <= FAR
}

// Whether no side of the box is too far away.
fn is_near_box(a: Frame) -> bool
    ensures { result ≡ true → IsBoxUpTo (2 ^ 53) a }
{
    if !is_low_near(a) {
        return false;
    }
    is_high_near(a)
}

/// A box round a cell at all places of a placement, by a box that the cell is in. It has each image within 2^53 of 0.
pub(crate) fn placed_box(placement: &Placement, hull: Frame) -> Frame
    requires { IsPlacementOnGrid placement.now }
    ensures near { IsBoxUpTo (2 ^ 53) result }
    ensures around { (k : ℕ) (by v : APoint) → slice_get placement.now.offsets k ≡ Some by → IsInBox hull v
        → IsWithin (2 ^ 53) (image_of placement.now.orient (moved by placement.now.at) v)
        → IsInBox result (image_of placement.now.orient (moved by placement.now.at) v) }
{
    if !is_near_box(hull) {
        return wide();
    }
    let around = summed(oriented(placement.orient, hull), moves_of(placement));
    if is_near_box(around) {
        return around;
    }
    wide()
}
