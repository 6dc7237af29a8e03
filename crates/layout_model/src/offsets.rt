//! The places at which a shape or a cell stands, as a repetition gives them.
ghost use Rattle.std.specs.Prelude.{◌≢◌, [], ◌∷◌, ℕ, ◌≤◌, ◌≤ℤ◌, ◌≡◌, ◌<◌, ◌*◌, pos, ◌*ℤ◌, Some, length, slice_get, IsTrue, IfOk, IsOk, MatchOption};
ghost use Rattle.half_grid.specs.Reach.{IsWithinReach};
ghost use Rattle.layout_model.specs.Grids.{IsGrid, grid_place, grid_places, nth_place};
ghost use Rattle.layout_model.specs.Hulls.{IsLeastBoxOf};
ghost use Rattle.layout_model.specs.Intervals.{along, HasNoneIn, IsFirstIn};
ghost use Rattle.layout_model.specs.Places.{origin};
ghost use Rattle.layout_model.specs.Strides.{mark, IsNearby, IsRuler};

use crate::boxes::{box_between, box_of};
use crate::intervals::{Axis, Interval};
use crate::products::combine;
use crate::strides::Ruler;
use geo_stream::NoMemory;
use half_grid::{Frame, Point};
use smallvec::SmallVec;
use std::alloc::Global;
use std::marker::Model;
use std::rc::Rc;

const ORIGIN: Point = Point { x: 0, y: 0 };

// The places `a*u + b*v` for `a < nu`, `b < nv`, where `a` runs fastest.
#[derive(Clone, Copy, Debug)]
struct Grid {
    nu: u32,
    nv: u32,
    u: Point,
    v: Point,
}

// Whether a place is 0.
#[inline(always)]
fn is_origin(place: &Point) -> bool
    ensures { IsTrue result → place.now ≡ origin }
{
    if place.x != 0 {
        return false;
    }
    place.y == 0
}

// Places one by one, and their least box where there is one of them at least.
#[derive(Debug, Drop)]
struct Listed {
    places: SmallVec<Point, 4>,
    hull: Frame,
}

// Most shapes are at one place. What is seldom is boxed, so that a shape stays small. Listed places are shared by all that
// are copied from each other.
#[derive(Debug, Drop)]
enum Places {
    One(Point),
    Listed(Rc<Listed>),
    Regular(Box<Grid>),
}

/// The places at which a shape or a placed cell is: a list of moves. A grid is kept by its two counts and two
/// steps, and one place takes no memory. A list is kept once, however often it is copied. Contracts see the list.
#[derive(Debug, Drop)]
pub struct Offsets {
    places: Places,
}

impl Model for Offsets {
    ghost use Rattle.std.specs.Prelude.{List};
    ghost use Rattle.half_grid.specs.declared.plane.Point.{Point as APoint};

    ghost Value = { List APoint };

    ghost use Rattle.layout_model.specs.Offsets.{list_of, IsSound};

    ghost view = { λ offsets. list_of offsets.places };

    ghost invariant = { λ offsets. IsSound offsets.places };
}

impl Grid {
    // The place with these two numbers.
    fn at(self, a: u64, b: u64) -> Point
        requires grid { IsGrid self.nu self.nv self.u self.v }
        requires first { a < self.nu }
        requires second { b < self.nv }
        ensures { result ≡ grid_place self.u self.v a b }
    {
        Point {
            x: combine(a, self.u.x, b, self.v.x),
            y: combine(a, self.u.y, b, self.v.y),
        }
    }

    // Place `k` of the list.
    fn place(self, k: u64) -> Point
        requires grid { IsGrid self.nu self.nv self.u self.v }
        requires inside { k < self.nu * self.nv }
        ensures { result ≡ nth_place self.nu self.u self.v k }
    {
        let columns = u64::from(self.nu);
        self.at(k % columns, k / columns)
    }
}

// A step on an axis. One that no place takes counts as none.
fn step_on(axis: Axis, count: u32, step: Point) -> i64
    requires some { 1 ≤ count }
    requires reach { (a : ℕ) → a < count → IsWithinReach (pos a *ℤ along axis step) }
    ensures near { IsNearby result }
    ensures same { (a : ℕ) → a < count → (pos a *ℤ result) ≡ (pos a *ℤ along axis step) }
{
    if count == 1 {
        return 0;
    }
    axis.of(step)
}

impl Grid {
    // Its places on an axis.
    fn ruler(self, axis: Axis) -> Ruler
        requires { IsGrid self.nu self.nv self.u self.v }
        ensures ruler { IsRuler result }
        ensures nu { result.nu ≡ self.nu }
        ensures nv { result.nv ≡ self.nv }
        ensures same { (k : ℕ) → k < self.nu * self.nv → mark result k ≡ along axis (nth_place self.nu self.u self.v k) }
    {
        Ruler {
            nu: u64::from(self.nu),
            nv: u64::from(self.nv),
            u: step_on(axis, self.nu, self.u),
            v: step_on(axis, self.nv, self.v),
        }
    }

    // The first place in an interval from number `from` on.
    fn first_in(self, interval: Interval, from: u64) -> Option<u64>
        requires grid { IsGrid self.nu self.nv self.u self.v }
        requires inside { from < self.nu * self.nv }
        ensures { MatchOption result (HasNoneIn interval (grid_places self.nu self.nv self.u self.v) from (self.nu * self.nv))
            (IsFirstIn interval (grid_places self.nu self.nv self.u self.v) from) }
    {
        self.ruler(interval.axis).first_in(interval, from)
    }
}

/// The first of these places in an interval from number `from` on.
pub(crate) fn first_of(places: &[Point], interval: Interval, from: u64) -> Option<u64>
    ensures { MatchOption result (HasNoneIn interval places.now from (length places.now)) (IsFirstIn interval places.now from) }
{
    let mut k = from;
    while k < places.len() as u64 {
        if interval.has(places[k as usize]) {
            return Some(k);
        }
        k += 1;
    }
    None
}

// Which of so many steps from 0 on goes least far to the right.
fn left_step(count: u32, step: Point) -> u64
    requires { 1 ≤ count }
    ensures inside { result < count }
    ensures least { (a : ℕ) → a < count → (pos result *ℤ step.x) ≤ℤ (pos a *ℤ step.x) }
{
    if step.x < 0 { u64::from(count) - 1 } else { 0 }
}

// Which of them goes least far up.
fn bottom_step(count: u32, step: Point) -> u64
    requires { 1 ≤ count }
    ensures inside { result < count }
    ensures least { (a : ℕ) → a < count → (pos result *ℤ step.y) ≤ℤ (pos a *ℤ step.y) }
{
    if step.y < 0 { u64::from(count) - 1 } else { 0 }
}

// Which of them goes farthest to the right.
fn right_step(count: u32, step: Point) -> u64
    requires { 1 ≤ count }
    ensures inside { result < count }
    ensures greatest { (a : ℕ) → a < count → (pos a *ℤ step.x) ≤ℤ (pos result *ℤ step.x) }
{
    if step.x < 0 { 0 } else { u64::from(count) - 1 }
}

// Which of them goes farthest up.
fn top_step(count: u32, step: Point) -> u64
    requires { 1 ≤ count }
    ensures inside { result < count }
    ensures greatest { (a : ℕ) → a < count → (pos a *ℤ step.y) ≤ℤ (pos result *ℤ step.y) }
{
    if step.y < 0 { 0 } else { u64::from(count) - 1 }
}

impl Grid {
    // The least box of its places, by four of its corners.
    fn hull(self) -> Frame
        requires { IsGrid self.nu self.nv self.u self.v }
        ensures { IsLeastBoxOf (grid_places self.nu self.nv self.u self.v) result }
    {
        let left = self.at(left_step(self.nu, self.u), left_step(self.nv, self.v));
        let bottom = self.at(bottom_step(self.nu, self.u), bottom_step(self.nv, self.v));
        let right = self.at(right_step(self.nu, self.u), right_step(self.nv, self.v));
        let top = self.at(top_step(self.nu, self.u), top_step(self.nv, self.v));
        box_between(left, bottom, right, top)
    }
}

// The least box of places where there is one of them.
fn hull_of(places: &[Point]) -> Frame
    ensures { places.now ≢ [] → IsLeastBoxOf places.now result }
{
    if places.is_empty() {
        return box_between(ORIGIN, ORIGIN, ORIGIN, ORIGIN);
    }
    box_of(places)
}

impl Offsets {
    /// These places. One place takes no memory.
    #[inline(always)]
    pub fn list(alloc: Global, places: &[Point]) -> Result<Offsets, NoMemory>
        ensures ok { IfOk result (λ offsets. offsets ≡ places.now) }
        ensures one { length places.now ≡ 1 → IsOk result }
    {
        if places.len() == 1 {
            let places = Places::One(places[0]);
            return Ok(Offsets { places });
        }
        let hull = hull_of(places);
        let places = SmallVec::from_slice(alloc, places)?;
        let places = Places::Listed(Rc::new(alloc, Listed { places, hull })?);
        Ok(Offsets { places })
    }

    /// The places `a*u + b*v` for `a < nu`, `b < nv`, where `a` runs fastest: place `k` is
    /// `(k mod nu)*u + (k div nu)*v`. Both counts are 1 to 16,777,216, and all places are within reach. This is the
    /// order of an array of a GDSII stream and of the regular repetitions of OASIS. A grid of one place takes no memory.
    pub fn grid(alloc: Global, nu: u64, nv: u64, u: Point, v: Point) -> Result<Offsets, NoMemory>
        requires { IsGrid nu nv u v }
        ensures ok { IfOk result (λ offsets. offsets ≡ grid_places nu nv u v) }
        ensures one { nu * nv ≡ 1 → IsOk result }
    {
        if nu * nv == 1 {
            let places = Places::One(ORIGIN);
            return Ok(Offsets { places });
        }
        let (nu, nv) = (nu as u32, nv as u32);
        let places = Places::Regular(Box::new(alloc, Grid { nu, nv, u, v })?);
        Ok(Offsets { places })
    }

    /// The same places again, in constant time: those of a list are shared. One place takes no memory.
    pub fn copy(&self, alloc: Global) -> Result<Offsets, NoMemory>
        ensures ok { IfOk result (λ copy. copy ≡ self.now) }
        ensures one { length self.now ≡ 1 → IsOk result }
    {
        match &self.places {
            Places::One(place) => Ok(Offsets {
                places: Places::One(*place),
            }),
            Places::Listed(listed) => Ok(Offsets {
                places: Places::Listed(listed.clone()?),
            }),
            Places::Regular(grid) => Ok(Offsets {
                places: Places::Regular(Box::new(alloc, **grid)?),
            }),
        }
    }

    /// The least box of its places, of which there is one at least, in constant time: that of a list is kept with it, and
    /// that of a grid comes from its corners.
    pub fn hull(&self) -> Frame
        requires { self.now ≢ [] }
        ensures { IsLeastBoxOf self.now result }
    {
        match &self.places {
            Places::One(place) => box_between(*place, *place, *place, *place),
            Places::Listed(listed) => listed.hull,
            Places::Regular(grid) => grid.hull(),
        }
    }

    // Whether there is one place, and it is 0. False where that isn't seen at once.
    #[inline(always)]
    pub(crate) fn is_origin(&self) -> bool
        ensures { IsTrue result → self.now ≡ origin ∷ [] }
    {
        match &self.places {
            Places::One(place) => is_origin(place),
            _ => false,
        }
    }

    // Whether these are the one place of others. False where there are more of them.
    pub(crate) fn is_again(&self, other: &Offsets) -> bool
        ensures { IsTrue result → self.now ≡ other.now }
    {
        match (&self.places, &other.places) {
            (Places::One(place), Places::One(same)) => *place == *same,
            _ => false,
        }
    }

    /// How many places there are.
    pub fn count(&self) -> u64
        ensures { result ≡ length self.now }
    {
        match &self.places {
            Places::One(_) => 1,
            Places::Listed(listed) => listed.places.len() as u64,
            Places::Regular(grid) => u64::from(grid.nu) * u64::from(grid.nv),
        }
    }

    /// Place `k`, counted from 0.
    pub fn nth(&self, k: u64) -> Point
        requires { k < length self.now }
        ensures { slice_get self.now k ≡ Some result }
    {
        match &self.places {
            Places::One(place) => *place,
            Places::Listed(listed) => listed.places.as_slice()[k as usize],
            Places::Regular(grid) => grid.place(k),
        }
    }

    /// The number of the first place in an interval of an axis, from number `from` on, if there is one. In a grid it is
    /// found by division: in a row at once, and over all rows at once where the places of a row have the same coordinate.
    /// So it takes no longer than the grid has rows.
    pub fn first_in(&self, interval: Interval, from: u64) -> Option<u64>
        ensures { MatchOption result (HasNoneIn interval self.now from (length self.now)) (IsFirstIn interval self.now from) }
    {
        if from >= self.count() {
            return None;
        }
        match &self.places {
            Places::One(place) => first_of(&[*place], interval, from),
            Places::Listed(listed) => first_of(listed.places.as_slice(), interval, from),
            Places::Regular(grid) => grid.first_in(interval, from),
        }
    }
}
