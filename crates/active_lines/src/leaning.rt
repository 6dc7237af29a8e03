//! Where a line passes, and where it meets the next one.
ghost use Rattle.std.specs.Prelude.{ℤ, ◌≡◌, ◌≢◌, Some, IfSome, IsTrue, false};
ghost use Rattle.half_grid.specs.Lines.{x_on};
ghost use Rattle.half_grid.specs.Reach.{IsWithinReach};
ghost use Rattle.active_lines.specs.Leaning.{lean_of, MeetAbove, IsNearLine};
ghost use Rattle.active_lines.specs.Neighbours.{lesser_of};

use half_grid::{Line, meeting_y};

/// The X of the line at `y`.
#[inline]
pub(crate) fn x_of(line: Line, y: i64) -> i64
    requires line { IsNearLine line }
    requires y { IsWithinReach y }
    ensures { result ≡ x_on line y }
{
    match line {
        Line::Upright(c) => c,
        Line::Rising(c) => 2 * c + y,
        Line::Falling(c) => 2 * c - y,
    }
}

// How far the line leans to the right.
#[inline]
fn lean_of(line: Line) -> u8
    ensures { result ≡ lean_of line }
{
    match line {
        Line::Falling(_) => 0,
        Line::Upright(_) => 1,
        Line::Rising(_) => 2,
    }
}

/// The Y at which the line meets the next one above, if it does.
#[inline]
pub(crate) fn meeting_above(line: Line, next: Line) -> Option<i64>
    requires line { IsNearLine line }
    requires next { IsNearLine next }
    ensures some { IfSome result (MeetAbove line next) }
    ensures only { (y : ℤ) → MeetAbove line next y → result ≡ Some y }
{
    if lean_of(line) <= lean_of(next) {
        return None;
    }
    meeting_y(line, next)
}

/// The lesser of two Y, where there are any.
#[inline]
pub(crate) fn lesser(y: Option<i64>, z: Option<i64>) -> Option<i64>
    ensures { result ≡ lesser_of y z }
{
    match (y, z) {
        (Some(y), Some(z)) => Some(y.min(z)),
        (Some(y), None) => Some(y),
        (None, z) => z,
    }
}

/// A Y at which meetings are looked for.
#[derive(Clone, Copy)]
pub(crate) struct Level {
    pub(crate) y: i64,
}

/// Whether there is a meeting, and it is at this level.
#[inline]
pub(crate) fn is_at(meeting: Option<i64>, level: Level) -> bool
    ensures yes { IsTrue result → meeting ≡ Some level.y }
    ensures other { result ≡ false → meeting ≢ Some level.y }
{
    match meeting {
        Some(meeting) => meeting == level.y,
        None => false,
    }
}
