//! Outlines that go up once and down once, and their pieces.
ghost use Rattle.std.specs.Prelude.{◌≡◌, ◌<◌, ◌≤◌, ◌≤ℤ◌, [], IfSome, IfOk, IsTrue, length, false};
ghost use Rattle.half_grid.specs.Outlines.{IsClosed};
ghost use Rattle.half_grid.specs.Trapezoids.{CoversExactly};
ghost use Rattle.half_grid.specs.Winding.{IsInPolygon, winding};
ghost use Rattle.half_grid.specs.declared.plane.Tile.{Tile};
ghost use Rattle.bool_ops.specs.Monotone.{
  twice_round,
  point_of,
  IsWayFrom,
  IsClimb,
  rest_of,
  top_of,
  IsNextClimb,
  IsPutBetween,
};

use crate::ascents::{Ascent, ascent_ahead, ascent_back, level, level_back, point_at};
use crate::lone::{Slab, trap_in};
use geo_stream::NoMemory;
use half_grid::{Point, Trap};

// Two ways up from the Y `from`: one ahead along the points, one back.
#[derive(Clone, Copy)]
struct Climb {
    from: i64,
    ahead: Ascent,
    back: Ascent,
}

// The number of the first of the lowest points.
fn lowest(points: &[Point]) -> usize
    requires { 0 < length points.now }
    ensures { result < length points.now }
{
    let mut low = 0;
    let mut at = 1;
    while at < points.len() {
        if points[at].y < points[low].y {
            low = at;
        }
        at += 1;
    }
    low
}

// Both ways up from the lowest points.
fn first_climb(points: &[Point]) -> Option<Climb>
    requires { IsClosed points.now }
    ensures climb { IfSome result (IsClimb (twice_round points.now)) }
    ensures rest { IfSome result (λ c. (t : Tile) → rest_of (twice_round points.now) c c.from t ≡ winding points.now t) }
{
    let low = lowest(points);
    let end = low + (points.len() - 1);
    let start = level(points, low, end);
    let stop = level_back(points, end, start);
    let Some(ahead) = ascent_ahead(points, start, stop) else {
        return None;
    };
    let Some(back) = ascent_back(points, stop, ahead.at) else {
        return None;
    };
    let from = point_at(points, low).y;
    Some(Climb { from, ahead, back })
}

// The Y at which the first of both ways ends.
fn top_of(climb: &Climb) -> i64
    ensures { result ≡ top_of climb.now }
{
    climb.ahead.top.min(climb.back.top)
}

// The way ahead from the Y `from`, up to point `to`: a new one where the old one ends there.
fn next_ahead(points: &[Point], from: i64, ahead: Ascent, to: usize) -> Option<Ascent>
    requires order { ahead.at ≤ to }
    requires within { to < length (twice_round points.now) }
    requires rows { from ≤ℤ ahead.top }
    requires top { ahead.top ≡ (point_of (twice_round points.now) ahead.at).y }
    ensures after { IfSome result (λ a. ahead.at ≤ a.at) }
    ensures before { IfSome result (λ a. a.at ≤ to) }
    ensures fewer { IfSome result (λ a. from ≡ ahead.top → ahead.at < a.at) }
    ensures way { IfSome result (IsWayFrom (twice_round points.now) from ahead) }
{
    if from < ahead.top {
        return Some(ahead);
    }
    ascent_ahead(points, ahead.at, to)
}

// The way back, in the same way.
fn next_back(points: &[Point], from: i64, back: Ascent, to: usize) -> Option<Ascent>
    requires order { to ≤ back.at }
    requires within { back.at < length (twice_round points.now) }
    requires rows { from ≤ℤ back.top }
    requires top { back.top ≡ (point_of (twice_round points.now) back.at).y }
    ensures after { IfSome result (λ a. to ≤ a.at) }
    ensures before { IfSome result (λ a. a.at ≤ back.at) }
    ensures fewer { IfSome result (λ a. from ≡ back.top → a.at < back.at) }
    ensures way { IfSome result (IsWayFrom (twice_round points.now) from back) }
{
    if from < back.top {
        return Some(back);
    }
    ascent_back(points, back.at, to)
}

// Both ways up from the next Y at which one ends. None where an edge there goes down.
fn next_climb(points: &[Point], climb: &Climb) -> Option<Climb>
    requires { IsClimb (twice_round points.now) climb.now }
    ensures { IfSome result (IsNextClimb (twice_round points.now) climb.now) }
{
    let from = top_of(climb);
    let Some(ahead) = next_ahead(points, from, climb.ahead, climb.back.at) else {
        return None;
    };
    let Some(back) = next_back(points, from, climb.back, ahead.at) else {
        return None;
    };
    Some(Climb { from, ahead, back })
}

// Puts the trapezoid between both ways, up to where the first of them ends. Answers whether there is one.
fn put_between(traps: &mut Vec<Trap>, climb: &Climb) -> Result<bool, NoMemory>
    ensures { IfOk result (λ known. IsTrue known → IsPutBetween climb.now traps.old.items traps.new.items) }
{
    let slab = Slab {
        y0: climb.from,
        y1: top_of(climb),
        first: climb.ahead.line,
        second: climb.back.line,
    };
    let Some(trap) = trap_in(slab) else {
        return Ok(false);
    };
    traps.push(trap)?;
    Ok(true)
}

// Puts the pieces into an empty list. Answers whether these are all.
fn put_all(points: &[Point], traps: &mut Vec<Trap>) -> Result<bool, NoMemory>
    requires closed { IsClosed points.now }
    requires none { traps.old.items ≡ [] }
    ensures { IfOk result (λ known. IsTrue known → CoversExactly traps.new.items (IsInPolygon points.now)) }
{
    let Some(mut climb) = first_climb(points) else {
        return Ok(false);
    };
    while climb.ahead.at < climb.back.at {
        if !put_between(traps, &climb)? {
            return Ok(false);
        }
        let Some(next) = next_climb(points, &climb) else {
            return Ok(false);
        };
        climb = next;
    }
    put_between(traps, &climb)
}

/// Puts the pieces of a closed outline, clockwise or not, into the list, in place of what it holds, where the outline goes
/// up once and down once, as an octagon does, or an L. Answers false where it isn't known to be trapezoids one above the
/// other, and then the list is empty. It takes no memory but the list's own. Only memory that runs out refuses it.
pub fn monotone_pieces(points: &[Point], traps: &mut Vec<Trap>) -> Result<bool, NoMemory>
    requires { IsClosed points.now }
    ensures known { IfOk result (λ known. IsTrue known → CoversExactly traps.new.items (IsInPolygon points.now)) }
    ensures unknown { IfOk result (λ known. known ≡ false → traps.new.items ≡ []) }
{
    traps.clear();
    let known = put_all(points, traps)?;
    if !known {
        traps.clear();
    }
    Ok(known)
}
