//! Least boxes of points.
ghost use Rattle.std.specs.Prelude.{◌≡◌, ◌^◌, ◌<◌, ◌≤◌, ◌*ℤ◌, pos};
ghost use Rattle.layout_model.specs.Images.{IsOrient};
ghost use Rattle.cell_tree.specs.Boxes.{joined_box, summed_box, moved_box, enlarged_box, flipped_box, quarter_box, turned_box, oriented_box, IsUpTo, IsBoxUpTo};

use half_grid::{Frame, Point};
use layout_model::Orient;

/// The least box of two.
pub(crate) fn joined(a: Frame, b: Frame) -> Frame
    ensures { result ≡ joined_box a b }
{
    Frame {
        x0: a.x0.min(b.x0),
        y0: a.y0.min(b.y0),
        x1: a.x1.max(b.x1),
        y1: a.y1.max(b.y1),
    }
}

/// The least box of all sums of a point of the one and a point of the other.
pub(crate) fn summed(a: Frame, b: Frame) -> Frame
    requires a { IsBoxUpTo (2 ^ 60) a }
    requires b { IsBoxUpTo (2 ^ 60) b }
    ensures { result ≡ summed_box a b }
{
    Frame {
        x0: a.x0 + b.x0,
        y0: a.y0 + b.y0,
        x1: a.x1 + b.x1,
        y1: a.y1 + b.y1,
    }
}

/// The box moved.
pub(crate) fn moved(at: Point, a: Frame) -> Frame
    requires at { IsBoxUpTo (2 ^ 60) (moved_box at a) }
    ensures { result ≡ moved_box at a }
{
    Frame {
        x0: a.x0 + at.x,
        y0: a.y0 + at.y,
        x1: a.x1 + at.x,
        y1: a.y1 + at.y,
    }
}

fn times(mag: u8, z: i64) -> i64
    requires mag { mag ≤ 16 }
    requires z { IsUpTo (2 ^ 53) z }
    ensures { result ≡ pos mag *ℤ z }
{
    i64::from(mag) * z
}

fn enlarged(mag: u8, a: Frame) -> Frame
    requires mag { mag ≤ 16 }
    requires a { IsBoxUpTo (2 ^ 53) a }
    ensures value { result ≡ enlarged_box mag a }
    ensures small { IsBoxUpTo (2 ^ 57) result }
{
    Frame {
        x0: times(mag, a.x0),
        y0: times(mag, a.y0),
        x1: times(mag, a.x1),
        y1: times(mag, a.y1),
    }
}

fn flipped(flip: bool, a: Frame) -> Frame
    requires { IsBoxUpTo (2 ^ 57) a }
    ensures value { result ≡ flipped_box flip a }
    ensures small { IsBoxUpTo (2 ^ 57) result }
{
    if flip {
        return Frame {
            x0: a.x0,
            y0: -a.y1,
            x1: a.x1,
            y1: -a.y0,
        };
    }
    a
}

fn quarter_turn(a: Frame) -> Frame
    requires { IsBoxUpTo (2 ^ 57) a }
    ensures value { result ≡ quarter_box a }
    ensures small { IsBoxUpTo (2 ^ 57) result }
{
    Frame {
        x0: -a.y1,
        y0: a.x0,
        x1: -a.y0,
        y1: a.x1,
    }
}

fn turned(turns: u8, a: Frame) -> Frame
    requires turns { turns < 4 }
    requires a { IsBoxUpTo (2 ^ 57) a }
    ensures value { result ≡ turned_box turns a }
    ensures small { IsBoxUpTo (2 ^ 57) result }
{
    match turns {
        0 => a,
        1 => quarter_turn(a),
        2 => quarter_turn(quarter_turn(a)),
        _ => quarter_turn(quarter_turn(quarter_turn(a))),
    }
}

/// The least box of the images under an orientation.
pub(crate) fn oriented(orient: Orient, a: Frame) -> Frame
    requires orient { IsOrient orient }
    requires a { IsBoxUpTo (2 ^ 53) a }
    ensures value { result ≡ oriented_box orient a }
    ensures small { IsBoxUpTo (2 ^ 57) result }
{
    turned(orient.turns, flipped(orient.flip, enlarged(orient.mag, a)))
}
