//! Outlines that are one trapezoid, known by a look at their points.
ghost use Rattle.std.specs.Prelude.{◌≡◌, [], ◌∷◌, IfSome, IsTrue};
ghost use Rattle.half_grid.specs.Outlines.{IsClosed};
ghost use Rattle.half_grid.specs.Trapezoids.{CoversExactly};
ghost use Rattle.half_grid.specs.Winding.{IsInPolygon};
ghost use Rattle.bool_ops.specs.Lone.{HasSides, IsSlabOf, IsBetween};

use half_grid::{Line, Point, Trap, line_through};

// A side of an outline, from one corner to the next.
#[derive(Clone, Copy)]
struct Side {
    from: Point,
    to: Point,
}

// Two sides of an outline, the second after the first.
#[derive(Clone, Copy)]
struct Sides {
    first: Side,
    second: Side,
}

// The rows from `y0` up to below `y1`, and two lines.
#[derive(Clone, Copy)]
pub(crate) struct Slab {
    pub(crate) y0: i64,
    pub(crate) y1: i64,
    pub(crate) first: Line,
    pub(crate) second: Line,
}

// Whether both points have one Y.
fn is_level(a: &Point, b: &Point) -> bool
    ensures { IsTrue result → a.now.y ≡ b.now.y }
{
    a.y == b.y
}

// The sides of an outline of four corners that aren't level, where two are.
fn sides_of(points: &[Point]) -> Option<Sides>
    requires { IsClosed points.now }
    ensures { IfSome result (HasSides points.now) }
{
    let [a, b, c, d, _end] = points else {
        return None;
    };
    if is_level(b, c) {
        if is_level(d, a) {
            return Some(Sides {
                first: Side { from: *a, to: *b },
                second: Side { from: *c, to: *d },
            });
        }
    }
    if is_level(a, b) {
        if is_level(c, d) {
            return Some(Sides {
                first: Side { from: *b, to: *c },
                second: Side { from: *d, to: *a },
            });
        }
    }
    None
}

// The rows between two sides, and their lines. None where one of them is on no line, as where it is level.
fn slab_of(sides: Sides) -> Option<Slab>
    ensures { IfSome result (IsSlabOf sides) }
{
    let Some(first) = line_through(sides.first.from, sides.first.to) else {
        return None;
    };
    let Some(second) = line_through(sides.second.from, sides.second.to) else {
        return None;
    };
    if sides.first.from.y < sides.first.to.y {
        return Some(Slab {
            y0: sides.first.from.y,
            y1: sides.first.to.y,
            first,
            second,
        });
    }
    Some(Slab {
        y0: sides.first.to.y,
        y1: sides.first.from.y,
        first,
        second,
    })
}

// The trapezoid between the lines, whichever is the left one. None where they cross.
pub(crate) fn trap_in(slab: Slab) -> Option<Trap>
    ensures { IfSome result (IsBetween slab) }
{
    if let Some(trap) = Trap::new(slab.y0, slab.y1, slab.first, slab.second) {
        return Some(trap);
    }
    Trap::new(slab.y0, slab.y1, slab.second, slab.first)
}

/// The one trapezoid that a closed outline is, clockwise or not, where it has four corners and two level sides, as each
/// rectangle has. None where the outline has another form; nothing is said of whether it is one trapezoid all the same.
/// It takes no memory.
pub fn lone_piece(points: &[Point]) -> Option<Trap>
    requires { IsClosed points.now }
    ensures { IfSome result (λ z. CoversExactly (z ∷ []) (IsInPolygon points.now)) }
{
    let Some(sides) = sides_of(points) else {
        return None;
    };
    let Some(slab) = slab_of(sides) else {
        return None;
    };
    trap_in(slab)
}
