//! The first part that is cut off a trapezoid, and what is left of it.
ghost use Rattle.std.specs.Prelude.{◌≡◌, ◌≤ℤ◌, ◌<ℤ◌, None, Some};
ghost use Rattle.std.specs.Option.{ForSome};
ghost use Rattle.half_grid.specs.Trapezoids.{IsShot, trapezoid, box_width};
ghost use Rattle.fracture.specs.Limits.{AreLimits};
ghost use Rattle.fracture.specs.Cutting.{height_of, least_right, lowest_rows, rows_above, cut_at, leftmost_part, part_beyond};

use half_grid::{Limits, Line, Trap};

/// A part that was cut off, and what is left, if anything is.
#[derive(Clone, Copy, Debug, PartialEq, Eq)]
pub(crate) struct Cut {
    pub(crate) part: Trap,
    pub(crate) rest: Option<Trap>,
}

// The least X on its right line.
fn least_right(trap: &Trap) -> i64
    ensures { result ≡ least_right trap.now }
{
    trap.bottom_right().min(trap.top_right())
}

// Where a piece that is wider than the limits is cut.
fn cut_at(piece: &Trap, limits: &Limits) -> i64
    requires limits { AreLimits limits.now.height limits.now.width }
    requires shot { IsShot piece.now }
    requires wide { limits.now.width <ℤ box_width piece.now }
    ensures { result ≡ cut_at limits.now.width piece.now }
{
    (piece.least_x() + limits.width).min(least_right(piece))
}

/// The lowest `height` rows of a trapezoid, and the others. All of it is the part where it isn't higher.
pub(crate) fn cut_by_height(trap: &Trap, limits: &Limits) -> Cut
    requires { AreLimits limits.now.height limits.now.width }
    ensures whole { height_of trap.now ≤ℤ limits.now.height → result ≡ record { part = trap.now; rest = None } }
    ensures cut { limits.now.height <ℤ height_of trap.now
        → result ≡ record { part = lowest_rows limits.now.height trap.now; rest = Some (rows_above limits.now.height trap.now) } }
    ensures low { height_of result.part ≤ℤ limits.now.height }
    ensures shot { IsShot trap.now }
{
    let (y0, y1) = (trap.y0(), trap.y1());
    if trap.height() <= limits.height {
        return Cut {
            part: *trap,
            rest: None,
        };
    }
    let y = y0 + limits.height;
    Cut {
        part: Trap::of(y0, y, trap.left(), trap.right()),
        rest: Some(Trap::of(y, y1, trap.left(), trap.right())),
    }
}

/// The leftmost part of a piece that isn't higher than the limits, and what lies beyond it. All of it is the part where
/// it isn't wider than the limits.
pub(crate) fn cut_by_width(piece: &Trap, limits: &Limits) -> Cut
    requires limits { AreLimits limits.now.height limits.now.width }
    requires low { height_of piece.now ≤ℤ limits.now.height }
    ensures whole { box_width piece.now ≤ℤ limits.now.width → result ≡ record { part = piece.now; rest = None } }
    ensures cut { limits.now.width <ℤ box_width piece.now
        → result ≡ record { part = leftmost_part limits.now.width piece.now; rest = Some (part_beyond limits.now.width piece.now) } }
    ensures low { ForSome result.rest (λ z. height_of z ≤ℤ limits.now.height) }
    ensures shot { IsShot piece.now }
{
    let (y0, y1) = (piece.y0(), piece.y1());
    if piece.box_width() <= limits.width {
        return Cut {
            part: *piece,
            rest: None,
        };
    }
    let middle = Line::Upright(cut_at(piece, limits));
    Cut {
        part: Trap::of(y0, y1, piece.left(), middle),
        rest: Some(Trap::of(y0, y1, middle, piece.right())),
    }
}
