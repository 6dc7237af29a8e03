//! What shrinking leaves of one trapezoid by itself.
ghost use Rattle.std.specs.Prelude.{◌≡◌, ◌↔◌, ◌≤ℤ◌, ◌<ℤ◌, pos, neg_ℤ};
ghost use Rattle.std.specs.Option.{option_to_list};
ghost use Rattle.half_grid.specs.Lines.{x_on, first_strip};
ghost use Rattle.half_grid.specs.Nearness.{IsShrunk};
ghost use Rattle.half_grid.specs.Reach.{IsWithinReach};
ghost use Rattle.half_grid.specs.Trapezoids.{IsInTrapezoid, bottom_of, top_of};
ghost use Rattle.half_grid.specs.declared.plane.Tile.{Tile};
ghost use Rattle.square_size.specs.Lone.{IsInOne};
ghost use Rattle.square_size.specs.Shrinking.{moved, inner, rows_of, IsNearReach, IsBand};

use half_grid::{Line, Trap, meeting_y};

// Rows from `y0` up to below `y1` between two lines, which may cross.
#[derive(Clone, Copy)]
struct Band {
    y0: i64,
    y1: i64,
    left: Line,
    right: Line,
}

// The line moved right by so many strips of the kind that it bounds.
fn moved(line: Line, by: i64) -> Line
    requires line { IsWithinReach (first_strip line) }
    requires low { neg_ℤ (pos 65536) ≤ℤ by }
    requires high { by ≤ℤ pos 65536 }
    ensures { result ≡ moved by line }
{
    match line {
        Line::Upright(c) => Line::Upright(c + by),
        Line::Rising(c) => Line::Rising(c + by),
        Line::Falling(c) => Line::Falling(c + by),
    }
}

// The rows and lines between which a tile has all near ones in the trapezoid.
fn inner(trap: &Trap, d: i64) -> Band
    requires low { pos 1 ≤ℤ d }
    requires high { d ≤ℤ pos 65536 }
    ensures value { rows_of result ≡ inner d trap.now }
    ensures band { IsBand (rows_of result) }
{
    let (y0, y1) = (trap.y0() + d, trap.y1() - d);
    let left = moved(trap.left(), d);
    let right = moved(trap.right(), -d);
    Band {
        y0,
        y1,
        left,
        right,
    }
}

// The X of the line at `y`.
#[inline]
fn x_on(line: Line, y: i64) -> i64
    requires line { IsNearReach (first_strip line) }
    requires y { IsNearReach y }
    ensures { result ≡ x_on line y }
{
    match line {
        Line::Upright(c) => c,
        Line::Rising(c) => 2 * c + y,
        Line::Falling(c) => 2 * c - y,
    }
}

// How far the right line is right of the left one at the bottom.
fn bottom_of(band: &Band) -> i64
    requires { IsBand (rows_of band.now) }
    ensures { result ≡ bottom_of (rows_of band.now) }
{
    x_on(band.right, band.y0) - x_on(band.left, band.y0)
}

// The same at the top.
fn top_of(band: &Band) -> i64
    requires { IsBand (rows_of band.now) }
    ensures { result ≡ top_of (rows_of band.now) }
{
    x_on(band.right, band.y1) - x_on(band.left, band.y1)
}

// The part over the meeting of two lines that are crossed at the bottom. It has all the tiles between them.
fn over_meeting(band: &Band) -> Option<Trap>
    requires band { IsBand (rows_of band.now) }
    requires rows { band.now.y0 <ℤ band.now.y1 }
    requires bottom { bottom_of (rows_of band.now) <ℤ pos 0 }
    requires top { pos 0 <ℤ top_of (rows_of band.now) }
    ensures { (t : Tile) → IsInTrapezoid (rows_of band.now) t ↔ IsInOne (option_to_list result) t }
{
    let Some(y) = meeting_y(band.left, band.right) else {
        return None;
    };
    Some(Trap::of(y, band.y1, band.left, band.right))
}

// The part under the meeting of two lines that are crossed at the top.
fn under_meeting(band: &Band) -> Option<Trap>
    requires band { IsBand (rows_of band.now) }
    requires rows { band.now.y0 <ℤ band.now.y1 }
    requires bottom { pos 0 <ℤ bottom_of (rows_of band.now) }
    requires top { top_of (rows_of band.now) <ℤ pos 0 }
    ensures { (t : Tile) → IsInTrapezoid (rows_of band.now) t ↔ IsInOne (option_to_list result) t }
{
    let Some(y) = meeting_y(band.left, band.right) else {
        return None;
    };
    Some(Trap::of(band.y0, y, band.left, band.right))
}

// The trapezoid of the tiles of these rows between the lines.
fn legal_part(band: &Band) -> Option<Trap>
    requires { IsBand (rows_of band.now) }
    ensures { (t : Tile) → IsInTrapezoid (rows_of band.now) t ↔ IsInOne (option_to_list result) t }
{
    if band.y1 <= band.y0 {
        return None;
    }
    let (bottom, top) = (bottom_of(band), top_of(band));
    if bottom < 0 {
        if top <= 0 {
            return None;
        }
        return over_meeting(band);
    }
    if top < 0 {
        if bottom <= 0 {
            return None;
        }
        return under_meeting(band);
    }
    if bottom + top <= 0 {
        return None;
    }
    Some(Trap::of(band.y0, band.y1, band.left, band.right))
}

/// The trapezoid of the tiles of which all near ones are in this trapezoid, by a square of half side `d`. None where there
/// are none. It takes no memory.
pub(crate) fn shrunk(trap: &Trap, d: i64) -> Option<Trap>
    requires low { pos 1 ≤ℤ d }
    requires high { d ≤ℤ pos 65536 }
    ensures { (t : Tile) → IsShrunk d d (IsInTrapezoid trap.now) t ↔ IsInOne (option_to_list result) t }
{
    legal_part(&inner(trap, d))
}
