//! Lists of points, short ones without memory of their own.
ghost use Rattle.std.specs.Prelude.{◌≡◌, ◌≢◌, ◌<◌, ◌≤◌, ◌+ℤ◌, [], length, map, All, IfOk, IsOk, IfSome, IsSome, IsTrue};
ghost use Rattle.half_grid.specs.Reach.{IsPointWithinReach, IsWithinReach};
ghost use Rattle.layout_model.specs.Hulls.{IsLeastBoxOf};
ghost use Rattle.layout_model.specs.Images.{moved as point_after};

use crate::boxes::box_of;
use geo_stream::NoMemory;
use half_grid::{Frame, Point};
use smallvec::SmallVec;
use std::alloc::Global;
use std::marker::Model;
use std::rc::Rc;

// So many points take no memory.
const FEW: usize = 9;

// Points one by one, and their least box.
#[derive(Debug, Drop)]
struct Many {
    points: SmallVec<Point, 4>,
    hull: Frame,
}

// Points of its own, or shared ones that are moved so.
#[derive(Debug, Drop)]
enum Held {
    Own(SmallVec<Point, FEW>),
    Shared(Rc<Many>, Point),
}

/// A list of points. Up to nine of them, as an octagon's outline has, take no memory, and those of a list that was made
/// from a `SharedPoints` are shared. Contracts see the list.
#[derive(Debug, Drop)]
pub struct Points {
    held: Held,
}

impl Model for Points {
    ghost use Rattle.std.specs.Prelude.{List};
    ghost use Rattle.half_grid.specs.declared.plane.Point.{Point as APoint};

    ghost Value = { List APoint };

    ghost use Rattle.layout_model.specs.Points.{points_of, AreSound};

    ghost view = { λ points. points_of points.held };

    ghost invariant = { λ points. AreSound points.held };
}

/// More than nine points that are kept once, however many lists are made from them. Contracts see the list.
#[derive(Debug, Drop)]
pub struct SharedPoints {
    kept: Rc<Many>,
}

impl Model for SharedPoints {
    ghost use Rattle.std.specs.Prelude.{List};
    ghost use Rattle.half_grid.specs.declared.plane.Point.{Point as APoint};

    ghost Value = { List APoint };

    ghost use Rattle.layout_model.specs.Points.{AreMany};

    ghost view = { λ points. points.kept.value.points.items };

    ghost invariant = { λ points. AreMany points.kept.value.points.items points.kept.value.hull };
}

// A coordinate with that of a move.
fn sum(at: i64, by: i64) -> i64
    requires { IsWithinReach (at +ℤ by) }
    ensures { result ≡ at +ℤ by }
{
    at + by
}

/// A point moved.
pub(crate) fn moved(p: &Point, by: Point) -> Point
    requires { IsPointWithinReach (point_after by p.now) }
    ensures { result ≡ point_after by p.now }
{
    Point {
        x: sum(p.x, by.x),
        y: sum(p.y, by.y),
    }
}

// These points moved.
fn all_moved(alloc: Global, points: &[Point], by: Point) -> Result<Vec<Point>, NoMemory>
    requires { All IsPointWithinReach (map (point_after by) points.now) }
    ensures { IfOk result (λ list. list.items ≡ map (point_after by) points.now) }
{
    let mut list = Vec::with_capacity(alloc, points.len())?;
    for p in points {
        list.push(moved(p, by))?;
    }
    Ok(list)
}

// Whether two lists of points are the same.
fn are_same(points: &[Point], others: &[Point]) -> bool
    ensures { IsTrue result → points.now ≡ others.now }
{
    points == others
}

// The least box of points moved, by that of the points.
fn hull_moved(hull: Frame, by: Point) -> Frame
    requires x0 { IsWithinReach (hull.x0 +ℤ by.x) }
    requires y0 { IsWithinReach (hull.y0 +ℤ by.y) }
    requires x1 { IsWithinReach (hull.x1 +ℤ by.x) }
    requires y1 { IsWithinReach (hull.y1 +ℤ by.y) }
    ensures x0 { result.x0 ≡ hull.x0 +ℤ by.x }
    ensures y0 { result.y0 ≡ hull.y0 +ℤ by.y }
    ensures x1 { result.x1 ≡ hull.x1 +ℤ by.x }
    ensures y1 { result.y1 ≡ hull.y1 +ℤ by.y }
{
    Frame {
        x0: sum(hull.x0, by.x),
        y0: sum(hull.y0, by.y),
        x1: sum(hull.x1, by.x),
        y1: sum(hull.y1, by.y),
    }
}

impl Points {
    /// The list of these points. Up to nine points take no memory.
    #[inline(always)]
    pub fn new(alloc: Global, points: &[Point]) -> Result<Points, NoMemory>
        ensures ok { IfOk result (λ list. list ≡ points.now) }
        ensures few { length points.now ≤ 9 → IsOk result }
    {
        let held = Held::Own(SmallVec::from_slice(alloc, points)?);
        Ok(Points { held })
    }

    /// The points in order, where they are the list's own: those of up to nine points always are. None where they are shared.
    #[inline(always)]
    pub fn as_slice(&self) -> Option<&[Point]>
        ensures own { IfSome result (λ points. points.now ≡ self.now) }
        ensures few { length self.now ≤ 9 → IsSome result }
    {
        match &self.held {
            Held::Own(points) => Some(points.as_slice()),
            Held::Shared(_, _) => None,
        }
    }

    /// A copy of the points in order.
    pub fn to_vec(&self, alloc: Global) -> Result<Vec<Point>, NoMemory>
        ensures { IfOk result (λ points. points.items ≡ self.now) }
    {
        match &self.held {
            Held::Own(points) => Ok(Vec::from_slice(alloc, points.as_slice())?),
            Held::Shared(many, by) => all_moved(alloc, many.points.as_slice(), *by),
        }
    }

    /// Whether these are the points of another list that shares them with this one, on the same place: a pass over them.
    /// False, in constant time, where they aren't shared.
    pub fn is_again(&self, other: &Points) -> bool
        ensures { IsTrue result → self.now ≡ other.now }
    {
        match (&self.held, &other.held) {
            (Held::Shared(many, by), Held::Shared(same, to)) => {
                if !Rc::ptr_eq(many, same) {
                    return false;
                }
                if *by != *to {
                    return false;
                }
                are_same(many.points.as_slice(), same.points.as_slice())
            }
            _ => false,
        }
    }

    /// The least box of its points, of which there is one at least. That of shared points is kept with them.
    pub fn hull(&self) -> Frame
        requires { self.now ≢ [] }
        ensures { IsLeastBoxOf self.now result }
    {
        match &self.held {
            Held::Own(points) => box_of(points.as_slice()),
            Held::Shared(many, by) => hull_moved(many.hull, *by),
        }
    }
}

impl SharedPoints {
    /// These points, of which there are more than nine.
    pub fn new(alloc: Global, points: &[Point]) -> Result<SharedPoints, NoMemory>
        requires { 9 < length points.now }
        ensures { IfOk result (λ list. list ≡ points.now) }
    {
        let hull = box_of(points);
        let points = SmallVec::from_slice(alloc, points)?;
        let kept = Rc::new(alloc, Many { points, hull })?;
        Ok(SharedPoints { kept })
    }

    /// Their least box, in constant time.
    pub fn hull(&self) -> Frame
        ensures { IsLeastBoxOf self.now result }
    {
        self.kept.hull
    }

    /// The list with each point moved so, in constant time: its points are shared.
    pub fn moved(&self, by: Point) -> Result<Points, NoMemory>
        requires { All IsPointWithinReach (map (point_after by) self.now) }
        ensures { IfOk result (λ points. points ≡ map (point_after by) self.now) }
    {
        let held = Held::Shared(self.kept.clone()?, by);
        Ok(Points { held })
    }
}
