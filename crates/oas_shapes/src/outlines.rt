//! Point lists that polygons use again.
ghost use Rattle.std.specs.Prelude.{◌≡◌, ◌≤◌, ◌^◌, ◌↔◌, pos, neg_ℤ, ◌≤ℤ◌, ◌+ℤ◌, ◌-ℤ◌, length, map, IsTrue, IfOk, IfSome, Err};
ghost use Rattle.half_grid.specs.Halves.{twice};
ghost use Rattle.layout_model.specs.Images.{moved as place_after};
ghost use Rattle.layout_model.specs.Layouts.{IsWithin};
ghost use Rattle.oas_shapes.specs.Plane.{IsNearInSteps, IsNearInHalves};
ghost use Rattle.oas_shapes.specs.Moves.{way_between, low_corner, high_corner, IsItsOutline};
ghost use Rattle.oas_shapes.specs.Rules.{AreNear};
ghost use Rattle.oas_shapes.specs.declared.trails.Unplaced.TheVariants.{Far};

use crate::lists::polygon_outline;
use crate::trails::Unplaced;
use half_grid::{Frame, Point};
use layout_model::{Points, SharedPoints, has_grid_edges};
use oas_record::Deltas;
use std::alloc::Global;
use std::marker::Model;

// A list that is as long as this or longer is kept once for all polygons that use it.
const LONG: u64 = 10;

// An outline has so many points at most in place.
const FEW: usize = 9;

// At most so far from 0, in half units.
const FARTHEST: i64 = 1 << 41;

/// The outline of a polygon, made at this position, in grid steps.
#[derive(Debug, Drop)]
pub(crate) struct Made {
    at: Point,
    outline: SharedPoints,
}

/// The point list of polygons as it is written. The outline of a long one is made once, and all polygons that use the
/// list share it, each moved to its position. Contracts see what is written.
#[derive(Debug, Drop)]
pub struct PointList<'f> {
    written: Deltas<'f>,
    // The outline, once it was made.
    made: Option<Made>,
}

impl<'f> Model for PointList<'f> {
    ghost use Rattle.oas_record.specs.declared.fields.Deltas.{Deltas as ADeltas};
    ghost use Rattle.oas_shapes.specs.Moves.{IsMade};

    ghost Value = { ADeltas };

    ghost view = { λ list. list.written };

    ghost invariant = { λ list. IsMade list.written list.made };
}

// A step on an axis from one coordinate in grid steps to another.
#[derive(Clone, Copy)]
struct Step {
    from: i64,
    to: i64,
}

impl Step {
    fn halves(self) -> i64
        requires from_low { neg_ℤ (pos (2 ^ 40)) ≤ℤ self.from }
        requires from_high { self.from ≤ℤ pos (2 ^ 40) }
        requires to_low { neg_ℤ (pos (2 ^ 40)) ≤ℤ self.to }
        requires to_high { self.to ≤ℤ pos (2 ^ 40) }
        ensures { result ≡ twice (self.to -ℤ self.from) }
    {
        let steps = self.to - self.from;
        steps + steps
    }
}

/// From one place in grid steps to another, in half units.
pub(crate) fn way(from: Point, to: Point) -> Point
    requires from { IsNearInSteps from }
    requires to { IsNearInSteps to }
    ensures { result ≡ way_between from to }
{
    let across = Step {
        from: from.x,
        to: to.x,
    };
    let upward = Step {
        from: from.y,
        to: to.y,
    };
    Point {
        x: across.halves(),
        y: upward.halves(),
    }
}

// A coordinate after a move.
fn sum(at: i64, by: i64) -> i64
    requires at_low { neg_ℤ (pos (2 ^ 41)) ≤ℤ at }
    requires at_high { at ≤ℤ pos (2 ^ 41) }
    requires by_low { neg_ℤ (pos (2 ^ 42)) ≤ℤ by }
    requires by_high { by ≤ℤ pos (2 ^ 42) }
    ensures { result ≡ at +ℤ by }
{
    at + by
}

/// The lower left corner of a box after a move.
pub(crate) fn low_after(hull: Frame, by: Point) -> Point
    requires near { IsNearInHalves (low_corner hull) }
    requires by { IsWithin (2 ^ 42) by }
    ensures { result ≡ place_after by (low_corner hull) }
{
    Point {
        x: sum(hull.x0, by.x),
        y: sum(hull.y0, by.y),
    }
}

/// Its upper right corner.
pub(crate) fn high_after(hull: Frame, by: Point) -> Point
    requires near { IsNearInHalves (high_corner hull) }
    requires by { IsWithin (2 ^ 42) by }
    ensures { result ≡ place_after by (high_corner hull) }
{
    Point {
        x: sum(hull.x1, by.x),
        y: sum(hull.y1, by.y),
    }
}

/// Whether it is near 0.
pub(crate) fn is_near(p: Point) -> bool
    ensures { IsTrue result ↔ IsNearInHalves p }
{
    if p.x < -FARTHEST {
        return false;
    }
    if FARTHEST < p.x {
        return false;
    }
    if p.y < -FARTHEST {
        return false;
    }
    p.y <= FARTHEST
}

impl Made {
    /// The outline at this position, in constant time: its points are shared.
    pub(crate) fn at(&self, at: Point) -> Result<Points, Unplaced>
        requires here { IsNearInSteps self.now.at }
        requires near { AreNear self.now.outline }
        requires there { IsNearInSteps at }
        ensures outline { IfOk result (λ outline. outline ≡ map (place_after (way_between self.now.at at)) self.now.outline) }
        ensures near { IfOk result AreNear }
        ensures far { result ≡ Err Far → ¬ AreNear (map (place_after (way_between self.now.at at)) self.now.outline) }
    {
        let by = way(self.at, at);
        let hull = self.outline.hull();
        if !is_near(low_after(hull, by)) {
            return Err(Unplaced::Far);
        }
        if !is_near(high_after(hull, by)) {
            return Err(Unplaced::Far);
        }
        match self.outline.moved(by) {
            Ok(outline) => Ok(outline),
            Err(_) => Err(Unplaced::NoMemory),
        }
    }
}

// The outline of a long list at this position, where it is near 0 and on the grid, and where memory is there.
fn made_at(alloc: Global, at: Point, written: &Deltas<'_>) -> Option<Made>
    requires near { IsNearInSteps at }
    requires long { 10 ≤ length written.now.items }
    ensures { IfSome result (IsItsOutline written.now) }
{
    let Ok(outline) = polygon_outline(alloc, at, written) else {
        return None;
    };
    let points = outline.as_slice();
    if points.len() <= FEW {
        return None;
    }
    if !has_grid_edges(points) {
        return None;
    }
    match SharedPoints::new(alloc, points) {
        Ok(outline) => Some(Made { at, outline }),
        Err(_) => None,
    }
}

impl<'f> PointList<'f> {
    /// The list that is written so.
    pub fn new(written: Deltas<'f>) -> PointList<'f>
        ensures { result ≡ written.entry }
    {
        PointList {
            written,
            made: None,
        }
    }

    /// What is written.
    pub fn written(&self) -> &Deltas<'f>
        ensures { result.now ≡ self.now }
    {
        &self.written
    }

    /// Makes the outline of a long list at this position, where it isn't made yet, keeps the rules, and where memory is
    /// there: in the time and the memory of the list. It changes nothing else.
    pub fn make_outline(&mut self, alloc: Global, at: Point)
        requires { IsWithin (2 ^ 40) at }
        ensures { self.new ≡ self.old }
    {
        if self.made.is_some() {
            return;
        }
        if self.written.items.len() < LONG {
            return;
        }
        if let Some(made) = made_at(alloc, at, &self.written) {
            self.made = Some(made);
        }
    }

    /// Its outline, where it was made.
    pub(crate) fn made(&self) -> Option<&Made>
        ensures { IfSome result (λ made. IsItsOutline self.now made.now) }
    {
        match &self.made {
            Some(made) => Some(made),
            None => None,
        }
    }
}
