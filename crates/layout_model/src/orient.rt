//! How a placed cell is enlarged, mirrored and turned.
ghost use Rattle.std.specs.Prelude.{◌≡◌, ◌^◌, ◌+ℤ◌};
ghost use Rattle.layout_model.specs.Layouts.{IsWithin};
ghost use Rattle.layout_model.specs.Products.{IsProduct};
ghost use Rattle.layout_model.specs.Images.{IsOrient, IsWide, image_of, enlarged, flipped, turned, moved, wide_point};

use crate::products::times;
use half_grid::Point;

/// How a placed cell is enlarged, mirrored and turned, in this order: both coordinates are multiplied by `mag`; y is
/// negated where `flip`; then it is turned counterclockwise by quarter turns.
#[derive(Clone, Copy, Debug, PartialEq, Eq)]
pub struct Orient {
    /// Whether y is negated.
    pub flip: bool,
    /// The number of quarter turns, 0 to 3.
    pub turns: u8,
    /// The factor, 1 to 16.
    pub mag: u8,
}

// A point whose coordinates may be wider than those of a layout.
#[derive(Clone, Copy)]
struct Wide {
    x: i128,
    y: i128,
}

fn enlarge(orient: Orient, point: Point) -> Wide
    requires { IsOrient orient }
    ensures value { wide_point result ≡ enlarged orient.mag point }
    ensures small { IsWide result }
{
    Wide {
        x: times(u64::from(orient.mag), point.x),
        y: times(u64::from(orient.mag), point.y),
    }
}

fn flip(orient: Orient, point: Wide) -> Wide
    requires { IsWide point }
    ensures value { wide_point result ≡ flipped orient.flip (wide_point point) }
    ensures small { IsWide result }
{
    if orient.flip {
        return Wide {
            x: point.x,
            y: -point.y,
        };
    }
    point
}

fn turn(orient: Orient, point: Wide) -> Wide
    requires orient { IsOrient orient }
    requires small { IsWide point }
    ensures value { wide_point result ≡ turned orient.turns (wide_point point) }
    ensures small { IsWide result }
{
    let Wide { x, y } = point;
    match orient.turns {
        0 => point,
        1 => Wide { x: -y, y: x },
        2 => Wide { x: -x, y: -y },
        _ => Wide { x: y, y: -x },
    }
}

// The sum, which is a little wider.
fn sum(wide: i128, move_by: i64) -> i128
    requires { IsProduct wide }
    ensures { result ≡ wide +ℤ move_by }
{
    wide + move_by as i128
}

// The point moved.
fn shift(at: Point, point: Wide) -> Wide
    requires { IsWide point }
    ensures { wide_point result ≡ moved at (wide_point point) }
{
    Wide {
        x: sum(point.x, at.x),
        y: sum(point.y, at.y),
    }
}

fn narrow(point: Wide) -> Point
    requires { IsWithin (2 ^ 62) (wide_point point) }
    ensures { result ≡ wide_point point }
{
    Point {
        x: point.x as i64,
        y: point.y as i64,
    }
}

/// The image of a point under an orientation and a move: both coordinates are multiplied by `mag`; y is negated where
/// `flip`; then come `turns` quarter turns counterclockwise, each of which sends `(x, y)` to `(-y, x)`; then the move
/// by `at`, which isn't enlarged. The image has to be within `2^62` of 0.
#[inline(always)]
pub fn image(orient: Orient, at: Point, p: Point) -> Point
    requires orient { IsOrient orient }
    requires near { IsWithin (2 ^ 62) (image_of orient at p) }
    ensures { result ≡ image_of orient at p }
{
    let turned = turn(orient, flip(orient, enlarge(orient, p)));
    narrow(shift(at, turned))
}
