//! Neighbouring lines, looked through from one to the next.
ghost use Rattle.std.specs.Prelude.{ℤ, ◌≡◌, ◌+◌, ◌-◌, ◌<◌, ◌≤◌, ◌∷◌, [], All, IfSome, IfNone, IsTrue, length, take, drop, false};
ghost use Rattle.std.specs.List.{HoldsAt};
ghost use Rattle.half_grid.specs.Reach.{IsWithinReach};
ghost use Rattle.active_lines.specs.Points.{IsBefore, IsNotBefore, AscendAt};
ghost use Rattle.active_lines.specs.Neighbours.{SomeMeeting, IsLeastMeeting, IsFirstMeeting, IsSeam};
ghost use Rattle.active_lines.specs.ActiveLists.{IsShut};
ghost use Rattle.active_lines.specs.Chunked.{HasNearLine};

use crate::item::ActiveLine;
use crate::leaning::{Level, is_at, lesser, meeting_above, x_of};
use half_grid::Point;

/// Whether the line passes left of the point.
#[inline]
pub(crate) fn is_before(line: &ActiveLine, point: Point) -> bool
    requires line { HasNearLine line.now }
    requires y { IsWithinReach point.y }
    ensures before { IsTrue result → IsBefore point.x point.y line.now }
    ensures not_before { result ≡ false → IsNotBefore point.x point.y line.now }
{
    x_of(line.line, point.y) < point.x
}

/// How many of the lines, from the left, pass left of the point, by halving.
pub(crate) fn place_of(lines: &[ActiveLine], point: Point) -> usize
    requires near { All HasNearLine lines.now }
    requires ascend { AscendAt point.y lines.now }
    requires y { IsWithinReach point.y }
    ensures inside { result ≤ length lines.now }
    ensures before { All (IsBefore point.x point.y) (take result lines.now) }
    ensures after { All (IsNotBefore point.x point.y) (drop result lines.now) }
{
    let mut low = 0;
    let mut high = lines.len();
    while low < high {
        let middle = low + (high - low) / 2;
        if is_before(&lines[middle], point) {
            low = middle + 1;
        } else {
            high = middle;
        }
    }
    low
}

// The Y at which the line meets the first of the others above, if it does.
#[inline]
fn meeting_with(line: &ActiveLine, others: &[ActiveLine]) -> Option<i64>
    requires line { HasNearLine line.now }
    requires others { All HasNearLine others.now }
    ensures { IsSeam (line.now ∷ []) others.now result }
{
    match others.first() {
        Some(next) => meeting_above(line.line, next.line),
        None => None,
    }
}

/// The least Y at which one of the lines meets the next one.
pub(crate) fn least_meeting(lines: &[ActiveLine]) -> Option<i64>
    requires { All HasNearLine lines.now }
    ensures { IsLeastMeeting lines.now result }
{
    let mut least = None;
    let mut left = lines;
    while let Some((line, rest)) = left.split_first() {
        least = lesser(least, meeting_with(line, rest));
        left = rest;
    }
    least
}

/// The leftmost of the lines that meets the next one at the level.
pub(crate) fn first_meeting(lines: &[ActiveLine], level: Level) -> Option<ActiveLine>
    requires { All HasNearLine lines.now }
    ensures some { IfSome result (IsFirstMeeting lines.now level.y) }
    ensures none { IfNone result (SomeMeeting lines.now level.y → ⊥) }
{
    let mut left = lines;
    while let Some((line, rest)) = left.split_first() {
        if is_at(meeting_with(line, rest), level) {
            return Some(*line);
        }
        left = rest;
    }
    None
}

/// How many of the lines there are up to the last one at which a trapezoid is open, with it. 0 where it is shut at each.
pub(crate) fn last_open(lines: &[ActiveLine]) -> usize
    ensures inside { result ≤ length lines.now }
    ensures is_open { 0 < result → HoldsAt (λ l. IsShut l → ⊥) lines.now (result - 1) }
    ensures shut { All IsShut (drop result lines.now) }
{
    let mut front = lines;
    while let Some((last, rest)) = front.split_last() {
        if last.opened.is_some() {
            return front.len();
        }
        front = rest;
    }
    0
}
