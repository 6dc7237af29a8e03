//! Which places of a placement bring a cell's rows into a window.
ghost use Rattle.std.specs.Int.{int_min, int_max, int_div_euclid};
ghost use Rattle.std.specs.Prelude.{◌≡◌, ◌^◌, ◌≤◌, ◌<◌, ◌+◌, ℤ, pos, neg_ℤ, ◌+ℤ◌, ◌-ℤ◌, false};
ghost use Rattle.half_grid.specs.declared.plane.Point.{Point as APoint};
ghost use Rattle.layout_model.specs.Images.{IsOrient, image_of, moved};
ghost use Rattle.layout_model.specs.Intervals.{along, IsInInterval};
ghost use Rattle.layout_model.specs.Layouts.{IsWithin};
ghost use Rattle.flat_walk.specs.Rises.{upward, is_upright, rise_in, signed, meets_at, IsRange, IsAmid};

use crate::rows::Rows;
use half_grid::{Point, Window};
use layout_model::{Axis, Interval, Orient};

// How far up a point is in the end: its coordinate on an axis, enlarged, forward or backward.
#[derive(Clone, Copy)]
pub(crate) struct Rise {
    axis: Axis,
    forward: bool,
    mag: u8,
}

// No row that a cell may have is farther from 0.
const FAR: i64 = 1 << 60;

// The axis that points up or down in the end.
fn upward(turns: u8) -> Axis
    requires { turns < 4 }
    ensures { result ≡ upward turns }
{
    match turns {
        0 => Axis::Y,
        1 => Axis::X,
        2 => Axis::Y,
        _ => Axis::X,
    }
}

// Whether it points up.
fn is_upright(turns: u8, flip: bool) -> bool
    requires { turns < 4 }
    ensures { result ≡ is_upright turns flip }
{
    match turns {
        0 => !flip,
        1 => true,
        2 => flip,
        _ => false,
    }
}

fn rise_in(orient: Orient) -> Rise
    requires { orient.turns < 4 }
    ensures { result ≡ rise_in orient }
{
    Rise {
        axis: upward(orient.turns),
        forward: is_upright(orient.turns, orient.flip),
        mag: orient.mag,
    }
}

// The window's rows, less those that no cell may have.
fn within_reach(window: Window) -> Rows
    ensures low { result.low ≡ int_min (int_max window.y0 (neg_ℤ (pos (2 ^ 60)))) (pos (2 ^ 60)) }
    ensures high { result.high ≡ int_min (int_max window.y1 (neg_ℤ (pos (2 ^ 60)))) (pos (2 ^ 60)) }
    ensures near { IsRange (2 ^ 60) result }
{
    Rows {
        low: window.y0().max(-FAR).min(FAR),
        high: window.y1().max(-FAR).min(FAR),
    }
}

// How far up the rows must come to be in the window: more than the one and less than the other.
fn apart(wanted: Rows, rows: Rows) -> Rows
    requires wanted { IsRange (2 ^ 60) wanted }
    requires rows { IsRange (2 ^ 58) rows }
    ensures low { result.low ≡ wanted.low -ℤ rows.high }
    ensures high { result.high ≡ wanted.high -ℤ rows.low }
    ensures near { IsRange (2 ^ 61) result }
{
    Rows {
        low: wanted.low - rows.high,
        high: wanted.high - rows.low,
    }
}

// The same where a move brings them up already.
fn lowered(range: Rows, at: Point) -> Rows
    requires range { IsRange (2 ^ 61) range }
    requires at { IsWithin (2 ^ 54) at }
    ensures low { result.low ≡ range.low -ℤ at.y }
    ensures high { result.high ≡ range.high -ℤ at.y }
    ensures near { IsRange (2 ^ 62) result }
{
    Rows {
        low: range.low - at.y,
        high: range.high - at.y,
    }
}

// The same the other way.
fn reversed(range: Rows) -> Rows
    requires { IsRange (2 ^ 62) range }
    ensures low { result.low ≡ neg_ℤ range.high }
    ensures high { result.high ≡ neg_ℤ range.low }
    ensures near { IsRange (2 ^ 62) result }
{
    Rows {
        low: -range.high,
        high: -range.low,
    }
}

// The same forward or backward.
fn directed(forward: bool, range: Rows) -> Rows
    requires { IsRange (2 ^ 62) range }
    ensures amid { (z : ℤ) → IsAmid range (signed forward z) → IsAmid result z }
    ensures near { IsRange (2 ^ 62) result }
{
    if forward {
        return range;
    }
    reversed(range)
}

// The same with its greatest number.
fn closed(range: Rows) -> Rows
    requires { IsRange (2 ^ 62) range }
    ensures low { result.low ≡ range.low }
    ensures high { result.high ≡ range.high -ℤ pos 1 }
    ensures near { IsRange (2 ^ 62 + 1) result }
{
    Rows {
        low: range.low,
        high: range.high - 1,
    }
}

// Both divided and rounded down.
fn divided(mag: u8, range: Rows) -> Rows
    requires mag { 1 ≤ mag }
    requires range { IsRange (2 ^ 62 + 1) range }
    ensures low { result.low ≡ int_div_euclid range.low (pos mag) }
    ensures high { result.high ≡ int_div_euclid range.high (pos mag) }
    ensures near { IsRange (2 ^ 62 + 1) result }
{
    let mag = i64::from(mag);
    Rows {
        low: range.low.div_euclid(mag),
        high: range.high.div_euclid(mag),
    }
}

// The numbers above the one and up to the other.
fn from_next(range: Rows) -> Rows
    requires { IsRange (2 ^ 62 + 1) range }
    ensures low { result.low ≡ range.low +ℤ pos 1 }
    ensures high { result.high ≡ range.high }
    ensures near { IsRange (2 ^ 62 + 2) result }
{
    Rows {
        low: range.low + 1,
        high: range.high,
    }
}

// The coordinates that come to these when a move is added.
fn moved_back(axis: Axis, by: Point, range: Rows) -> Interval
    requires range { IsRange (2 ^ 62 + 2) range }
    requires by { IsWithin (2 ^ 41) by }
    ensures axis { result.axis ≡ axis }
    ensures low { result.low ≡ range.low -ℤ along axis by }
    ensures high { result.high ≡ range.high -ℤ along axis by }
{
    match axis {
        Axis::X => Interval {
            axis: Axis::X,
            low: range.low - by.x,
            high: range.high - by.x,
        },
        Axis::Y => Interval {
            axis: Axis::Y,
            low: range.low - by.y,
            high: range.high - by.y,
        },
    }
}

/// The places of a placement with the move `by`, in a cell that is placed with `outer` and `at`, at which the placed
/// cell's rows come into the window: those in an interval of an axis.
pub(crate) fn places_in(outer: Orient, at: Point, by: Point, rows: Rows, window: Window) -> Interval
    requires outer { IsOrient outer }
    requires at { IsWithin (2 ^ 54) at }
    requires by { IsWithin (2 ^ 41) by }
    requires rows { IsRange (2 ^ 58) rows }
    ensures { (p : APoint) → IsWithin (2 ^ 41) p → ¬ IsInInterval result p
        → meets_at window rows (image_of outer at (moved p by)).y ≡ false }
{
    let rise = rise_in(outer);
    let range = lowered(apart(within_reach(window), rows), at);
    let range = closed(directed(rise.forward, range));
    moved_back(rise.axis, by, from_next(divided(rise.mag, range)))
}
