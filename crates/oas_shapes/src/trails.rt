//! Places along moves, in half units.
ghost use Rattle.std.specs.Prelude.{◌≡◌, ◌<◌, ◌≤◌, ◌↔◌, ◌-ℤ◌, List, [], ◌∷◌, length, map, IsTrue, IsOk, OnOk, IfOk, IfErr, IfSome, IfNone, Err};
ghost use Rattle.half_grid.specs.declared.plane.Point.{Point as APoint};
ghost use Rattle.layout_model.specs.Images.{enlarged, moved as place_after};
ghost use Rattle.oas_shapes.specs.Plane.{IsNearInSteps, east, north, origin, doubled as in_halves, places_along};
ghost use Rattle.oas_shapes.specs.PointLists.{added_up};
ghost use Rattle.oas_shapes.specs.Rules.{AreNear};
ghost use Rattle.oas_shapes.specs.Trails.{IsTrail};
ghost use Rattle.oas_shapes.specs.Ways.{way_of, towards};
ghost use Rattle.oas_shapes.specs.declared.trails.Unplaced.TheVariants.{Far, NoMemory as Wanting};

use crate::wide::{ORIGIN, Wide, doubled, joined, moved, times, widened};
use half_grid::Point;
use oas_record::{Moves, Numbers};
use smallvec::SmallVec;
use std::alloc::Global;

/// So many places take no memory.
const FEW: usize = 12;

/// Why places can't be listed.
#[derive(Clone, Copy)]
pub(crate) enum Unplaced {
    /// One is more than 2^40 grid steps from 0.
    Far,
    /// A repetition's dimension is too large.
    Many,
    /// They are near and not too many, but memory ran out before they were kept.
    Unkept,
    /// Memory ran out before all of them were known.
    NoMemory,
}

/// Places in half units.
pub(crate) type Places = SmallVec<Point, FEW>;

// The places so far, and the place that was reached.
#[derive(Drop)]
struct Trail {
    listed: Places,
    at: Point,
}

impl Trail {
    fn new(alloc: Global, start: Point) -> Trail
        requires { IsNearInSteps start }
        ensures { (moves : List APoint) → IsTrail (places_along start moves) result moves }
    {
        Trail {
            listed: SmallVec::new(alloc),
            at: start,
        }
    }

    // On to the next place.
    fn go(&mut self, way: Wide) -> Result<(), Unplaced>
        requires { IsNearInSteps self.old.at }
        ensures on { (whole moves : List APoint) → IsTrail whole self.old (way_of way ∷ moves) → OnOk result (IsTrail whole self.new moves) }
        ensures at { OnOk result (self.new.at ≡ place_after self.old.at (way_of way)) }
        ensures far { (whole moves : List APoint) → IsTrail whole self.old (way_of way ∷ moves) → result ≡ Err Far → ¬ AreNear (map in_halves whole) }
        ensures few { (whole moves : List APoint) → IsTrail whole self.old (way_of way ∷ moves) → length whole ≤ 12 → IfErr result (λ bad. bad ≡ Far) }
    {
        let Some(next) = moved(self.at, way) else {
            return Err(Unplaced::Far);
        };
        match self.listed.push(doubled(self.at)) {
            Ok(()) => {
                self.at = next;
                Ok(())
            }
            Err(_) => Err(Unplaced::NoMemory),
        }
    }

    // All places.
    fn finish(self) -> Result<Places, Unplaced>
        requires { IsNearInSteps self.at }
        ensures places { (whole : List APoint) → IsTrail whole self [] → IfOk result (λ places. places.items ≡ map in_halves whole) }
        ensures near { (whole : List APoint) → IsTrail whole self [] → AreNear (map in_halves whole) }
        ensures far { (result ≡ Err Far) → ⊥ }
        ensures few { (whole : List APoint) → IsTrail whole self [] → length whole ≤ 12 → IsOk result }
        ensures room { (whole : List APoint) → IsTrail whole self [] → IfOk result (λ places. 12 ≤ places.capacity) }
    {
        let mut listed = self.listed;
        match listed.push(doubled(self.at)) {
            Ok(()) => Ok(listed),
            Err(_) => Err(Unplaced::NoMemory),
        }
    }
}

/// The places along these moves. Up to twelve places take no memory.
pub(crate) fn along(alloc: Global, start: Point, moves: &Moves<'_>) -> Result<Places, Unplaced>
    requires { IsNearInSteps start }
    ensures places { IfOk result (λ places. places.items ≡ map in_halves (places_along start moves.now)) }
    ensures near { IfOk result (λ places. AreNear places.items) }
    ensures far { result ≡ Err Far → ¬ AreNear (map in_halves (places_along start moves.now)) }
    ensures few { length moves.now < 12 → IfErr result (λ bad. bad ≡ Far) }
    ensures room { IfOk result (λ places. 12 ≤ places.capacity) }
{
    let mut trail = Trail::new(alloc, start);
    let mut rest = moves.items();
    while let Some(step) = rest.next() {
        match trail.go(widened(step)) {
            Ok(()) => (),
            Err(bad) => return Err(bad),
        }
    }
    trail.finish()
}

/// The places along moves each of which is added to the one before it. Up to twelve places take no memory.
pub(crate) fn along_changes(
    alloc: Global,
    start: Point,
    changes: &Moves<'_>,
) -> Result<Places, Unplaced>
    requires { IsNearInSteps start }
    ensures places { IfOk result (λ places. places.items ≡ map in_halves (places_along start (added_up origin changes.now))) }
    ensures near { IfOk result (λ places. AreNear places.items) }
    ensures far { result ≡ Err Far → ¬ AreNear (map in_halves (places_along start (added_up origin changes.now))) }
    ensures few { length changes.now < 12 → IfErr result (λ bad. bad ≡ Far) }
    ensures room { IfOk result (λ places. 12 ≤ places.capacity) }
{
    let mut trail = Trail::new(alloc, start);
    let mut way = ORIGIN;
    let mut rest = changes.items();
    while let Some(change) = rest.next() {
        let from = trail.at;
        match trail.go(joined(way, change)) {
            Ok(()) => (),
            Err(bad) => return Err(bad),
        }
        way = way_between(from, trail.at);
    }
    trail.finish()
}

/// The places along moves that are multiplied by a grid. Up to twelve places take no memory.
pub(crate) fn along_grid(alloc: Global, grid: u64, moves: &Moves<'_>) -> Result<Places, Unplaced>
    ensures places { IfOk result (λ places. places.items ≡ map in_halves (places_along origin (map (enlarged grid) moves.now))) }
    ensures near { IfOk result (λ places. AreNear places.items) }
    ensures far { result ≡ Err Far → ¬ AreNear (map in_halves (places_along origin (map (enlarged grid) moves.now))) }
    ensures few { length moves.now < 12 → IfErr result (λ bad. bad ≡ Far) }
{
    let mut trail = Trail::new(alloc, ORIGIN);
    let mut rest = moves.items();
    while let Some(step) = rest.next() {
        let Some(way) = times(grid, widened(step)) else {
            return Err(Unplaced::Far);
        };
        match trail.go(way) {
            Ok(()) => (),
            Err(bad) => return Err(bad),
        }
    }
    trail.finish()
}

/// The places along a row, or along a column where it is upright, at these spaces times the grid. Up to twelve places
/// take no memory.
pub(crate) fn along_spaces(
    alloc: Global,
    is_upright: bool,
    grid: u64,
    spaces: &Numbers<'_>,
) -> Result<Places, Unplaced>
    ensures places { IfOk result (λ places. places.items ≡ map in_halves (places_along origin (map (λ space. enlarged grid (towards is_upright space)) spaces.now))) }
    ensures near { IfOk result (λ places. AreNear places.items) }
    ensures far { result ≡ Err Far → ¬ AreNear (map in_halves (places_along origin (map (λ space. enlarged grid (towards is_upright space)) spaces.now))) }
    ensures few { length spaces.now < 12 → IfErr result (λ bad. bad ≡ Far) }
{
    let mut trail = Trail::new(alloc, ORIGIN);
    let mut rest = spaces.items();
    while let Some(space) = rest.next() {
        let Some(way) = times(grid, towards(is_upright, space)) else {
            return Err(Unplaced::Far);
        };
        match trail.go(way) {
            Ok(()) => (),
            Err(bad) => return Err(bad),
        }
    }
    trail.finish()
}

// Whether all places along these moves, times the grid, are near 0. It takes no memory.
pub(crate) fn moves_stay_near(grid: u64, moves: &Moves<'_>) -> bool
    ensures { IsTrue result ↔ AreNear (map in_halves (places_along origin (map (enlarged grid) moves.now))) }
{
    let mut at = ORIGIN;
    let mut rest = moves.items();
    while let Some(step) = rest.next() {
        match place_by(at, grid, widened(step)) {
            Some(next) => at = next,
            None => return false,
        }
    }
    true
}

// Whether all places along a row, or along a column where it is upright, at these spaces times the grid are near 0. It
// takes no memory.
pub(crate) fn spaces_stay_near(is_upright: bool, grid: u64, spaces: &Numbers<'_>) -> bool
    ensures { IsTrue result ↔ AreNear (map in_halves (places_along origin (map (λ space. enlarged grid (towards is_upright space)) spaces.now))) }
{
    let mut at = ORIGIN;
    let mut rest = spaces.items();
    while let Some(space) = rest.next() {
        match place_by(at, grid, towards(is_upright, space)) {
            Some(next) => at = next,
            None => return false,
        }
    }
    true
}

// The place after this move, times the grid, if it is near 0.
fn place_by(at: Point, grid: u64, way: Wide) -> Option<Point>
    requires { IsNearInSteps at }
    ensures some { IfSome result (λ next. (next ≡ place_after at (enlarged grid (way_of way))) × IsNearInSteps next) }
    ensures none { IfNone result (¬ IsNearInSteps (place_after at (enlarged grid (way_of way)))) }
{
    match times(grid, way) {
        Some(way) => moved(at, way),
        None => None,
    }
}

// A distance to the right or upward.
pub(crate) fn towards(is_upright: bool, space: u64) -> Wide
    ensures { way_of result ≡ towards is_upright space }
{
    let space = i128::from(space);
    if is_upright {
        Wide { x: 0, y: space }
    } else {
        Wide { x: space, y: 0 }
    }
}

// The move from one place to another.
fn way_between(from: Point, to: Point) -> Point
    requires from { IsNearInSteps from }
    requires to { IsNearInSteps to }
    ensures x { result.x ≡ to.x -ℤ from.x }
    ensures y { result.y ≡ to.y -ℤ from.y }
{
    Point {
        x: to.x - from.x,
        y: to.y - from.y,
    }
}
