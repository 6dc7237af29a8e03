//! Shapes as a cell keeps them.
ghost use Rattle.std.specs.Prelude.{◌≡◌, ◌≢◌, ◌<◌, ◌≤◌, ◌↔◌, ℕ, ◌^◌, [], ◌∷◌, All, length, slice_get, true, false, Some, IfOk, IfSome, IsOk, IsSome, IsTrue, MatchOption, Err};
ghost use Rattle.half_grid.specs.Outlines.{IsClosed, HasGridEdges};
ghost use Rattle.half_grid.specs.Reach.{IsPointWithinReach};
ghost use Rattle.layout_model.specs.Hulls.{IsLeastBoxOf};
ghost use Rattle.layout_model.specs.Intervals.{HasNoneIn, IsFirstIn};
ghost use Rattle.layout_model.specs.Kept.{IsShort, IsShortPoint, IsShortPair, point_from, pair_from, corner, ring_between, rectangle_kept, shape_with, points_in};
ghost use Rattle.layout_model.specs.Places.{origin};
ghost use Rattle.layout_model.specs.Slants.{IsFirstSlant};
ghost use Rattle.layout_model.specs.declared.shapes.ShapeBad.TheVariants.{Slant};

use crate::boxes::box_of;
use crate::intervals::Interval;
use crate::offsets::{Offsets, first_of};
use crate::pair::Pair;
use crate::points::Points;
use crate::shapes::{Shape, ShapeBad, first_slant};
use geo_stream::NoMemory;
use half_grid::{Frame, Point};
use std::alloc::Global;
use std::marker::Model;

const ORIGIN: Point = Point { x: 0, y: 0 };

// The least coordinate that takes more than 32 bits.
const LEAST_BEYOND: i64 = 1 << 31;

// The greatest number that takes 32 bits.
const GREATEST: u64 = (1 << 32) - 1;

// A rectangle by two opposite corners. Its outline goes from the first one upright or level, and on to the opposite one.
#[derive(Clone, Copy, Debug)]
struct Corners {
    first: Point,
    opposite: Point,
    is_upright: bool,
}

// A point in 64 bits.
#[derive(Clone, Copy, Debug)]
struct ShortPoint {
    x: i32,
    y: i32,
}

// A rectangle at the place 0 whose coordinates, layer and datatype are of 32 bits each.
#[derive(Clone, Copy, Debug)]
struct Plain {
    first: ShortPoint,
    opposite: ShortPoint,
    layer: u32,
    datatype: u32,
    is_upright: bool,
    is_fixed: bool,
}

// Most shapes are such rectangles. What is seldom is boxed, so that a kept shape stays small.
#[derive(Debug, Drop)]
enum Form {
    Rectangle(Plain),
    Drawn(Box<Shape>),
}

/// A shape as a cell keeps it, in 32 bytes. A rectangle that is once at the place 0, as most shapes are, takes no more
/// memory than that where its coordinates, layer and datatype are of at most 32 bits, and each other shape is boxed.
/// Contracts see the shape.
#[derive(Debug, Drop)]
pub struct KeptShape {
    form: Form,
}

impl Model for KeptShape {
    ghost use Rattle.layout_model.specs.declared.shapes.Shape.{Shape as AShape};
    ghost use Rattle.layout_model.specs.Kept.{kept_shape};

    ghost Value = { AShape };

    ghost view = { λ kept. kept_shape kept.form };
}

/// The outline of a kept shape.
#[derive(Clone, Copy)]
pub enum Outline<'t> {
    /// That of a rectangle.
    Ring([Point; 5]),
    /// One that is kept point by point.
    Kept(&'t Points),
}

impl<'t> Outline<'t> {
    /// The points in order, where they are in place: those of up to nine points always are. None where they are shared.
    #[inline(always)]
    pub fn as_slice(&self) -> Option<&[Point]>
        ensures own { IfSome result (λ points. points.now ≡ points_in self.now) }
        ensures few { length (points_in self.now) ≤ 9 → IsSome result }
    {
        match self {
            Outline::Ring(ring) => Some(ring.as_slice()),
            Outline::Kept(points) => points.as_slice(),
        }
    }

    /// A copy of the points in order.
    pub fn to_vec(&self, alloc: Global) -> Result<Vec<Point>, NoMemory>
        ensures { IfOk result (λ points. points.items ≡ points_in self.now) }
    {
        match self {
            Outline::Ring(ring) => Ok(Vec::from_slice(alloc, ring)?),
            Outline::Kept(points) => points.to_vec(alloc),
        }
    }
}

// A coordinate in 32 bits, if they hold it.
#[inline(always)]
fn short(at: i64) -> Option<i32>
    ensures same { IfSome result (λ few. few ≡ at) }
    ensures few { IsShort at → IsSome result }
{
    if at < -LEAST_BEYOND {
        return None;
    }
    if at >= LEAST_BEYOND {
        return None;
    }
    Some(at as i32)
}

// The number of a layer or datatype in 32 bits, if they hold it.
#[inline(always)]
fn short_number(number: u64) -> Option<u32>
    ensures same { IfSome result (λ few. few ≡ number) }
    ensures few { number < 2 ^ 32 → IsSome result }
{
    if number > GREATEST {
        return None;
    }
    Some(number as u32)
}

impl ShortPoint {
    // The point in 64 bits, if they hold it.
    #[inline(always)]
    fn of(point: Point) -> Option<ShortPoint>
        ensures same { IfSome result (λ few. point_from few ≡ point) }
        ensures few { IsShortPoint point → IsSome result }
    {
        let x = short(point.x)?;
        let y = short(point.y)?;
        Some(ShortPoint { x, y })
    }

    #[inline(always)]
    fn point(self) -> Point
        ensures { result ≡ point_from self }
    {
        Point {
            x: self.x as i64,
            y: self.y as i64,
        }
    }
}

impl Corners {
    // The outline.
    #[inline(always)]
    fn ring(self) -> [Point; 5]
        ensures { result ≡ ring_between self.first self.opposite self.is_upright }
    {
        let first = self.first;
        let opposite = self.opposite;
        let above = Point {
            x: first.x,
            y: opposite.y,
        };
        let beside = Point {
            x: opposite.x,
            y: first.y,
        };
        if self.is_upright {
            return [first, above, opposite, beside, first];
        }
        [first, beside, opposite, above, first]
    }
}

impl Plain {
    // The rectangle in 32 bytes, if they hold it.
    #[inline(always)]
    fn of(pair: Pair, corners: Corners, is_fixed: bool) -> Option<Plain>
        ensures few { IsShortPair pair → IsShortPoint corners.first → IsShortPoint corners.opposite → IsSome result }
        ensures shape { IfSome result (λ plain. rectangle_kept plain ≡ shape_with pair (ring_between corners.first corners.opposite corners.is_upright) (origin ∷ []) is_fixed) }
    {
        let first = ShortPoint::of(corners.first)?;
        let opposite = ShortPoint::of(corners.opposite)?;
        let layer = short_number(pair.layer)?;
        let datatype = short_number(pair.datatype)?;
        Some(Plain {
            first,
            opposite,
            layer,
            datatype,
            is_upright: corners.is_upright,
            is_fixed,
        })
    }

    #[inline(always)]
    fn pair(&self) -> Pair
        ensures { result ≡ pair_from self.now }
    {
        Pair {
            layer: self.layer as u64,
            datatype: self.datatype as u64,
        }
    }

    // The outline.
    #[inline(always)]
    fn ring(&self) -> [Point; 5]
        ensures { result ≡ ring_between (point_from self.now.first) (point_from self.now.opposite) self.now.is_upright }
    {
        let corners = Corners {
            first: self.first.point(),
            opposite: self.opposite.point(),
            is_upright: self.is_upright,
        };
        corners.ring()
    }
}

#[inline(always)]
fn is_same(p: &Point, q: &Point) -> bool
    ensures { IsTrue result → p.now ≡ q.now }
{
    if p.x != q.x {
        return false;
    }
    p.y == q.y
}

// Whether a point is above or below the first of two, or at it, and as high as the second.
#[inline(always)]
fn is_corner(p: &Point, along: &Point, beside: &Point) -> bool
    ensures { IsTrue result → p.now ≡ corner along.now beside.now }
{
    if p.x != along.x {
        return false;
    }
    p.y == beside.y
}

// The rectangle that has this outline, if one has it.
#[inline(always)]
fn corners_of(points: &[Point]) -> Option<Corners>
    ensures { IfSome result (λ corners. ring_between corners.first corners.opposite corners.is_upright ≡ points.now) }
{
    let [a, b, c, d, e] = points else {
        return None;
    };
    if !is_same(e, a) {
        return None;
    }
    if is_corner(b, a, c) {
        if is_corner(d, c, a) {
            return Some(Corners {
                first: *a,
                opposite: *c,
                is_upright: true,
            });
        }
    }
    if is_corner(b, c, a) {
        if is_corner(d, a, c) {
            return Some(Corners {
                first: *a,
                opposite: *c,
                is_upright: false,
            });
        }
    }
    None
}

// The rectangle of these points at these offsets, where it is one, is at the place 0 alone and 32 bytes hold it.
#[inline(always)]
fn plain_of(pair: Pair, points: &[Point], offsets: &Offsets, is_fixed: bool) -> Option<Plain>
    ensures { IfSome result (λ plain. rectangle_kept plain ≡ shape_with pair points.now offsets.now is_fixed) }
{
    if !offsets.is_origin() {
        return None;
    }
    match corners_of(points) {
        Some(corners) => Plain::of(pair, corners, is_fixed),
        None => None,
    }
}

impl KeptShape {
    /// The rectangle with these opposite corners, once, at the place 0, which may be enlarged. Its outline goes from
    /// the first corner upright. It takes no memory where its coordinates, layer and datatype are of at most 32 bits.
    #[inline(always)]
    pub fn rectangle(
        alloc: Global,
        pair: Pair,
        first: Point,
        opposite: Point,
    ) -> Result<KeptShape, NoMemory>
        ensures shape { IfOk result (λ kept. kept ≡ shape_with pair (ring_between first opposite true) (origin ∷ []) false) }
        ensures closed { IsClosed (ring_between first opposite true) }
        ensures edges { HasGridEdges (ring_between first opposite true) }
        ensures few { IsShortPair pair → IsShortPoint first → IsShortPoint opposite → IsOk result }
    {
        let corners = Corners {
            first,
            opposite,
            is_upright: true,
        };
        if let Some(plain) = Plain::of(pair, corners, false) {
            let form = Form::Rectangle(plain);
            return Ok(KeptShape { form });
        }
        KeptShape::wide(alloc, pair, corners)
    }

    // The rectangle with these corners, once, at the place 0, in a box.
    fn wide(alloc: Global, pair: Pair, corners: Corners) -> Result<KeptShape, NoMemory>
        ensures { IfOk result (λ kept. kept ≡ shape_with pair (ring_between corners.first corners.opposite corners.is_upright) (origin ∷ []) false) }
    {
        let points = Points::new(alloc, &corners.ring())?;
        let offsets = Offsets::list(alloc, &[ORIGIN])?;
        KeptShape::of(
            alloc,
            Shape {
                pair,
                points,
                offsets,
                fixed: false,
            },
        )
    }

    /// Keeps a shape in a box, whatever its form.
    pub fn of(alloc: Global, shape: Shape) -> Result<KeptShape, NoMemory>
        ensures { IfOk result (λ kept. kept ≡ shape) }
    {
        let form = Form::Drawn(Box::new(alloc, shape)?);
        Ok(KeptShape { form })
    }

    // The shape of these points, at these offsets.
    #[inline(always)]
    pub(crate) fn with(
        alloc: Global,
        pair: Pair,
        points: &[Point],
        offsets: Offsets,
        fixed: bool,
    ) -> Result<KeptShape, NoMemory>
        ensures { IfOk result (λ kept. kept ≡ shape_with pair points.now offsets fixed) }
    {
        if let Some(plain) = plain_of(pair, points, &offsets, fixed) {
            let form = Form::Rectangle(plain);
            return Ok(KeptShape { form });
        }
        let points = Points::new(alloc, points)?;
        KeptShape::of(
            alloc,
            Shape {
                pair,
                points,
                offsets,
                fixed,
            },
        )
    }

    /// The shape of this outline, which may be enlarged. A rectangle at the place 0 is kept in place. The list isn't empty,
    /// its last point is its first, and all points are within reach.
    #[inline(always)]
    pub fn new(
        alloc: Global,
        pair: Pair,
        points: &[Point],
        offsets: Offsets,
    ) -> Result<KeptShape, ShapeBad>
        requires closed { IsClosed points.now }
        requires reach { All IsPointWithinReach points.now }
        ensures pair { IfOk result (λ shape. shape.pair ≡ pair) }
        ensures points { IfOk result (λ shape. shape.points ≡ points.now) }
        ensures offsets { IfOk result (λ shape. shape.offsets ≡ offsets) }
        ensures free { IfOk result (λ shape. shape.fixed ≡ false) }
        ensures grid { IfOk result (λ _. HasGridEdges points.now) }
        ensures slant { (k : ℕ) → (result ≡ Err (Slant k)) ↔ IsFirstSlant points.now k }
    {
        if let Some(k) = first_slant(points) {
            return Err(ShapeBad::Slant(k));
        }
        let kept = KeptShape::with(alloc, pair, points, offsets, false)?;
        Ok(kept)
    }

    /// Its layer and datatype.
    #[inline(always)]
    pub fn pair(&self) -> Pair
        ensures { result ≡ self.now.pair }
    {
        match &self.form {
            Form::Rectangle(plain) => plain.pair(),
            Form::Drawn(shape) => shape.pair,
        }
    }

    /// Whether it may not be enlarged.
    pub fn is_fixed(&self) -> bool
        ensures { result ≡ self.now.fixed }
    {
        match &self.form {
            Form::Rectangle(plain) => plain.is_fixed,
            Form::Drawn(shape) => shape.fixed,
        }
    }

    /// Its outline; the last point is the first.
    #[inline(always)]
    pub fn outline(&self) -> Outline<'_>
        ensures { points_in result ≡ self.now.points }
    {
        match &self.form {
            Form::Rectangle(plain) => Outline::Ring(plain.ring()),
            Form::Drawn(shape) => Outline::Kept(&shape.points),
        }
    }

    /// The least box of its outline, which isn't empty.
    pub fn hull(&self) -> Frame
        requires { self.now.points ≢ [] }
        ensures { IsLeastBoxOf self.now.points result }
    {
        match &self.form {
            Form::Rectangle(plain) => box_of(&plain.ring()),
            Form::Drawn(shape) => shape.points.hull(),
        }
    }

    /// Whether it is another shape, as `Shape::is_again` says it. A rectangle that is kept in place isn't seen to be.
    #[inline(always)]
    pub(crate) fn is_again(&self, other: &KeptShape) -> bool
        ensures { IsTrue result → self.now ≡ other.now }
    {
        match (&self.form, &other.form) {
            (Form::Drawn(shape), Form::Drawn(other)) => shape.is_again(other),
            _ => false,
        }
    }

    /// How many places there are at which it is.
    #[inline(always)]
    pub fn count(&self) -> u64
        ensures { result ≡ length self.now.offsets }
    {
        match &self.form {
            Form::Rectangle(_) => 1,
            Form::Drawn(shape) => shape.offsets.count(),
        }
    }

    /// Place `k`, counted from 0.
    #[inline(always)]
    pub fn nth(&self, k: u64) -> Point
        requires { k < length self.now.offsets }
        ensures { slice_get self.now.offsets k ≡ Some result }
    {
        match &self.form {
            Form::Rectangle(_) => ORIGIN,
            Form::Drawn(shape) => shape.offsets.nth(k),
        }
    }

    /// The least box of its places, of which there is one at least.
    pub fn spread(&self) -> Frame
        requires { self.now.offsets ≢ [] }
        ensures { IsLeastBoxOf self.now.offsets result }
    {
        match &self.form {
            Form::Rectangle(_) => box_of(&[ORIGIN]),
            Form::Drawn(shape) => shape.offsets.hull(),
        }
    }

    /// The number of the first place in an interval of an axis, from number `from` on, if there is one, as `Offsets::first_in`
    /// finds it.
    pub fn first_in(&self, interval: Interval, from: u64) -> Option<u64>
        ensures { MatchOption result (HasNoneIn interval self.now.offsets from (length self.now.offsets)) (IsFirstIn interval self.now.offsets from) }
    {
        match &self.form {
            Form::Rectangle(_) => first_of(&[ORIGIN], interval, from),
            Form::Drawn(shape) => shape.offsets.first_in(interval, from),
        }
    }
}
