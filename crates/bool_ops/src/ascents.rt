//! The ways up along an outline, ahead and back.
ghost use Rattle.std.specs.Prelude.{◌≡◌, ◌<◌, ◌≤◌, ◌≤ℤ◌, IfSome, IsTrue, length};
ghost use Rattle.half_grid.specs.Lines.{Passes};
ghost use Rattle.bool_ops.specs.Monotone.{twice_round, point_of, IsLevel, IsAlong, IsAscent};

use half_grid::{Line, Point, line_through};

// A stretch of a line that an outline follows upward, to the Y `top` of the point of number `at`.
#[derive(Clone, Copy)]
pub(crate) struct Ascent {
    pub(crate) line: Line,
    pub(crate) top: i64,
    pub(crate) at: usize,
}

// The point of this number, along the outline twice round.
pub(crate) fn point_at(points: &[Point], number: usize) -> Point
    requires { number < length (twice_round points.now) }
    ensures { result ≡ point_of (twice_round points.now) number }
{
    let count = points.len();
    if number < count {
        return points[number];
    }
    points[number - count + 1]
}

// Whether the line passes through the point.
fn passes(line: Line, point: Point) -> bool
    ensures { IsTrue result → Passes line point }
{
    match line {
        Line::Upright(c) => point.x == c,
        Line::Rising(c) => point.difference() == 2 * (c as i128),
        Line::Falling(c) => point.sum() == 2 * (c as i128),
    }
}

// Whether the line passes through the second point, which isn't lower than the first.
fn goes_on(line: Line, here: Point, next: Point) -> bool
    ensures passes { IsTrue result → Passes line next }
    ensures up { IsTrue result → here.y ≤ℤ next.y }
{
    if next.y < here.y {
        return false;
    }
    passes(line, next)
}

// The last point, up to point `to`, that the outline comes to along the line without going down.
fn along(points: &[Point], line: Line, from: usize, to: usize) -> usize
    requires order { from ≤ to }
    requires within { to < length (twice_round points.now) }
    requires passes { Passes line (point_of (twice_round points.now) from) }
    ensures after { from ≤ result }
    ensures before { result ≤ to }
    ensures along { IsAlong (twice_round points.now) line from result }
{
    let mut at = from;
    while at < to && goes_on(line, point_at(points, at), point_at(points, at + 1)) {
        at += 1;
    }
    at
}

// The same from point `from` back.
fn along_back(points: &[Point], line: Line, from: usize, to: usize) -> usize
    requires order { to ≤ from }
    requires within { from < length (twice_round points.now) }
    requires passes { Passes line (point_of (twice_round points.now) from) }
    ensures after { to ≤ result }
    ensures before { result ≤ from }
    ensures along { IsAlong (twice_round points.now) line from result }
{
    let mut at = from;
    while to < at && goes_on(line, point_at(points, at), point_at(points, at - 1)) {
        at -= 1;
    }
    at
}

// Whether both points have one Y.
fn are_level(first: Point, next: Point) -> bool
    ensures { IsTrue result → next.y ≡ first.y }
{
    next.y == first.y
}

// The last point, up to point `to`, that the outline comes to at one Y.
pub(crate) fn level(points: &[Point], from: usize, to: usize) -> usize
    requires order { from ≤ to }
    requires within { to < length (twice_round points.now) }
    ensures after { from ≤ result }
    ensures before { result ≤ to }
    ensures level { IsLevel (twice_round points.now) from result }
{
    let first = point_at(points, from);
    let mut at = from;
    while at < to && are_level(first, point_at(points, at + 1)) {
        at += 1;
    }
    at
}

// The same from point `from` back.
pub(crate) fn level_back(points: &[Point], from: usize, to: usize) -> usize
    requires order { to ≤ from }
    requires within { from < length (twice_round points.now) }
    ensures after { to ≤ result }
    ensures before { result ≤ from }
    ensures level { IsLevel (twice_round points.now) from result }
{
    let first = point_at(points, from);
    let mut at = from;
    while to < at && are_level(first, point_at(points, at - 1)) {
        at -= 1;
    }
    at
}

// The way up from point `from` along one line, up to point `to`, and on at its top. None where the next edge doesn't go up.
pub(crate) fn ascent_ahead(points: &[Point], from: usize, to: usize) -> Option<Ascent>
    requires { to < length (twice_round points.now) }
    ensures after { IfSome result (λ a. from < a.at) }
    ensures before { IfSome result (λ a. a.at ≤ to) }
    ensures ascent { IfSome result (IsAscent (twice_round points.now) from) }
{
    if to <= from {
        return None;
    }
    let low = point_at(points, from);
    let next = point_at(points, from + 1);
    if next.y <= low.y {
        return None;
    }
    let Some(line) = line_through(low, next) else {
        return None;
    };
    let end = along(points, line, from + 1, to);
    let at = level(points, end, to);
    let top = point_at(points, end).y;
    Some(Ascent { line, top, at })
}

// The same from point `from` back.
pub(crate) fn ascent_back(points: &[Point], from: usize, to: usize) -> Option<Ascent>
    requires { from < length (twice_round points.now) }
    ensures after { IfSome result (λ a. to ≤ a.at) }
    ensures before { IfSome result (λ a. a.at < from) }
    ensures ascent { IfSome result (IsAscent (twice_round points.now) from) }
{
    if from <= to {
        return None;
    }
    let low = point_at(points, from);
    let next = point_at(points, from - 1);
    if next.y <= low.y {
        return None;
    }
    let Some(line) = line_through(low, next) else {
        return None;
    };
    let end = along_back(points, line, from - 1, to);
    let at = level_back(points, end, to);
    let top = point_at(points, end).y;
    Some(Ascent { line, top, at })
}
