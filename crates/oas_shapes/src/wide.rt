//! Moves of any length.
ghost use Rattle.std.specs.Prelude.{◌≡◌, pos, ◌+ℤ◌, ◌*ℤ◌, IfSome, IfNone};
ghost use Rattle.half_grid.specs.declared.plane.Point.{Point as APoint};
ghost use Rattle.layout_model.specs.Images.{moved as place_after, enlarged};
ghost use Rattle.oas_shapes.specs.Plane.{IsLength, IsNearInSteps, doubled as in_halves};
ghost use Rattle.oas_shapes.specs.Ways.{way_of};

use half_grid::Point;

/// Where cells and shapes are without a placement.
pub(crate) const ORIGIN: Point = Point { x: 0, y: 0 };

// How far from 0 a coordinate is at most, in grid steps.
const FARTHEST: i128 = 1 << 40;

/// A move in grid steps, of any length that fields can give.
#[derive(Clone, Copy)]
pub(crate) struct Wide {
    pub(crate) x: i128,
    pub(crate) y: i128,
}

// A move along one axis.
#[derive(Clone, Copy)]
struct Leg {
    from: i64,
    way: i128,
}

impl Leg {
    // Where it ends, if that is near 0.
    #[inline(always)]
    fn end(self) -> Option<i64>
        requires { IsLength self.from }
        ensures some { IfSome result (λ end. (end ≡ self.from +ℤ self.way) × IsLength end) }
        ensures none { IfNone result (¬ IsLength (self.from +ℤ self.way)) }
    {
        match i128::from(self.from).checked_add(self.way) {
            Some(end) => {
                if end < -FARTHEST || FARTHEST < end {
                    return None;
                }
                Some(end as i64)
            }
            None => None,
        }
    }
}

/// The place that a move leads to, if it is near 0.
#[inline(always)]
pub(crate) fn moved(from: Point, way: Wide) -> Option<Point>
    requires { IsNearInSteps from }
    ensures some { IfSome result (λ to. (to ≡ place_after from (way_of way)) × IsNearInSteps to) }
    ensures none { IfNone result (¬ IsNearInSteps (place_after from (way_of way))) }
{
    let across = Leg {
        from: from.x,
        way: way.x,
    };
    let upward = Leg {
        from: from.y,
        way: way.y,
    };
    match across.end() {
        Some(x) => match upward.end() {
            Some(y) => Some(Point { x, y }),
            None => None,
        },
        None => None,
    }
}

/// So many moves together. None where that leads away from any place near 0 to one that isn't.
pub(crate) fn times(count: u64, way: Wide) -> Option<Wide>
    ensures some { IfSome result (λ all. way_of all ≡ enlarged count (way_of way)) }
    ensures none { IfNone result ((from : APoint) → IsNearInSteps from → ¬ IsNearInSteps (place_after from (enlarged count (way_of way)))) }
{
    let count = i128::from(count);
    match count.checked_mul(way.x) {
        Some(x) => match count.checked_mul(way.y) {
            Some(y) => Some(Wide { x, y }),
            None => None,
        },
        None => None,
    }
}

/// A point near 0, in half units.
#[inline(always)]
pub(crate) fn doubled(point: Point) -> Point
    requires { IsNearInSteps point }
    ensures { result ≡ in_halves point }
{
    Point {
        x: point.x + point.x,
        y: point.y + point.y,
    }
}

/// A short move as a wide one.
pub(crate) fn widened(way: Point) -> Wide
    ensures { way_of result ≡ way }
{
    Wide {
        x: i128::from(way.x),
        y: i128::from(way.y),
    }
}

// Two coordinates.
#[derive(Clone, Copy)]
struct Both {
    first: i64,
    second: i64,
}

impl Both {
    fn sum(self) -> i128
        ensures { result ≡ self.second +ℤ self.first }
    {
        i128::from(self.second) + i128::from(self.first)
    }
}

/// The sum of two short moves.
pub(crate) fn joined(first: Point, second: Point) -> Wide
    ensures { way_of result ≡ place_after first second }
{
    let across = Both {
        first: first.x,
        second: second.x,
    };
    let upward = Both {
        first: first.y,
        second: second.y,
    };
    Wide {
        x: across.sum(),
        y: upward.sum(),
    }
}
