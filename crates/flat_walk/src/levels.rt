//! The cells on the way from the top cell to the one whose shapes are shown, and what they still place.
ghost use Rattle.std.specs.Prelude.{◌≡◌, ◌^◌, ◌<◌, ◌≤◌, ◌+ℤ◌, [], ◌++◌, None, Some, map, length, slice_get, MatchOption, IfSome};
ghost use Rattle.half_grid.specs.declared.plane.Point.{Point as APoint};
ghost use Rattle.layout_model.specs.Hulls.{IsInBox};
ghost use Rattle.layout_model.specs.declared.cells.Placement.{Placement as APlacement};
ghost use Rattle.layout_model.specs.Images.{IsOrient, moved, image_of};
ghost use Rattle.layout_model.specs.Layouts.{IsWithin, IsPlacementOnGrid};
ghost use Rattle.cell_tree.specs.Cells.{placements_at};
ghost use Rattle.flat_walk.specs.Rests.{Skips, marked_image};
ghost use Rattle.flat_walk.specs.Rises.{HasNoneBefore};
ghost use Rattle.flat_walk.specs.Ways.{low_corner, high_corner, IsScene, cells_of, marked_of, run_rest, things_at, placements_rest, level_rest, IsBetweenRows, IsRun, IsLevel, IsSpot, IsSamePlace, IsInner};

use crate::blocks::next_in;
use crate::boxes::spots_in;
use crate::rises::places_in;
use crate::rows::{Rows, are_within, meet, rows_between};
use crate::scenes::Scene;
use crate::turning::{composed, image, is_plain, moved, oriented};
use half_grid::{Frame, Point, Window};
use layout_model::{Orient, Placement};

// The places of a placement from one on.
#[derive(Clone, Copy)]
pub(crate) struct Run<'t> {
    placement: &'t Placement,
    place: u64,
    // The placed cell, how it is enlarged, mirrored and turned in the end, and the rows of its hull, so turned.
    target: usize,
    orient: Orient,
    rows: Rows,
}

// A cell on the way.
#[derive(Clone, Copy)]
pub(crate) struct Level<'t> {
    cell: usize,
    orient: Orient,
    at: Point,
    // How many cells it is below the top.
    depth: u8,
    // Whether all that it shows is known to be in the window, so that no box need be looked at.
    is_whole: bool,
    // The places of the placement before this one.
    run: Option<Run<'t>>,
    next: usize,
}

/// The rows moved.
pub(crate) fn raised(rows: Rows, at: Point) -> Rows
    requires rows { IsWithin (2 ^ 58) (record { x = rows.low; y = rows.high }) }
    requires at { IsWithin (2 ^ 58) at }
    ensures low { result.low ≡ rows.low +ℤ at.y }
    ensures high { result.high ≡ rows.high +ℤ at.y }
{
    Rows {
        low: rows.low + at.y,
        high: rows.high + at.y,
    }
}

impl<'t> Run<'t> {
    // The move of the placed cell at this place.
    fn spot(&self, outer: Orient, at: Point, by: Point) -> Point
        requires outer { IsOrient outer }
        requires at { IsWithin (2 ^ 54) at }
        requires place { IsWithin (2 ^ 41) self.now.placement.now.at }
        requires by { IsWithin (2 ^ 41) by }
        ensures { result ≡ image_of outer at (moved by self.now.placement.now.at) }
    {
        image(outer, at, moved(by, self.placement.at))
    }
}

impl<'t> Run<'t> {
    // The number of the next place at which the cell may have rows in the window, or how many places there are.
    fn onward(&self, window: Window, outer: Orient, at: Point) -> u64
        requires outer { IsOrient outer }
        requires at { IsWithin (2 ^ 54) at }
        requires grid { IsPlacementOnGrid self.now.placement.now }
        requires rows { IsWithin (2 ^ 58) (record { x = self.now.rows.low; y = self.now.rows.high }) }
        requires inside { self.now.place < length self.now.placement.now.offsets }
        ensures later { self.now.place < result }
        ensures inside { result ≤ length self.now.placement.now.offsets }
        ensures none { HasNoneBefore window outer at self.now result }
    {
        let count = self.placement.offsets.count();
        let wanted = places_in(outer, at, self.placement.at, self.rows, window);
        match self.placement.offsets.first_in(wanted, self.place + 1) {
            Some(place) => place,
            None => count,
        }
    }
}

impl<'t> Run<'t> {
    // The next place at which the cell may have rows in the window: the move of the cell there.
    fn next(&mut self, scene: &Scene<'t>, cell: usize, outer: Orient, at: Point) -> Option<Point>
        requires outer { IsOrient outer }
        requires at { IsWithin (2 ^ 54) at }
        requires run { IsRun scene.now cell outer self.old }
        ensures run { IsRun scene.now cell outer self.new }
        ensures target { self.new.target ≡ self.old.target }
        ensures orient { self.new.orient ≡ self.old.orient }
        ensures placement { self.new.placement.now ≡ self.old.placement.now }
        ensures gives { MatchOption result
            (Skips scene.now.window (run_rest scene.now outer at (Some self.old)) [] × (run_rest scene.now outer at (Some self.new) ≡ []))
            (λ spot. Skips scene.now.window (run_rest scene.now outer at (Some self.old))
            (map (marked_image self.old.orient spot) (marked_of scene.now self.old.target) ++ run_rest scene.now outer at (Some self.new))) }
        ensures spot { IfSome result (IsSpot outer at self.old.placement.now) }
    {
        while self.place < self.placement.offsets.count() {
            let by = self.placement.offsets.nth(self.place);
            let spot = self.spot(outer, at, by);
            if meet(raised(self.rows, spot), scene.window) {
                self.place += 1;
                return Some(spot);
            }
            self.place = self.onward(scene.window, outer, at);
        }
        None
    }
}

fn low_corner(hull: &Frame) -> Point
    ensures { result ≡ low_corner hull.now }
{
    Point {
        x: hull.x0,
        y: hull.y0,
    }
}

fn high_corner(hull: &Frame) -> Point
    ensures { result ≡ high_corner hull.now }
{
    Point {
        x: hull.x1,
        y: hull.y1,
    }
}

/// The rows of a box that is turned so.
pub(crate) fn rows_of(orient: Orient, hull: Frame) -> Rows
    requires orient { IsOrient orient }
    requires low { IsWithin (2 ^ 53) (low_corner hull) }
    requires high { IsWithin (2 ^ 53) (high_corner hull) }
    ensures between { (p : APoint) → IsInBox hull p → IsBetweenRows orient result.low result.high p }
    ensures near { IsWithin (2 ^ 58) (record { x = result.low; y = result.high }) }
{
    let low = low_corner(&hull);
    let high = high_corner(&hull);
    if is_plain(orient) {
        return rows_between(low, high);
    }
    rows_between(oriented(orient, low), oriented(orient, high))
}

// The placements of a cell.
fn placements_of<'t>(scene: &Scene<'t>, cell: usize) -> &'t [Placement]
    requires { cell < length (cells_of scene.now) }
    ensures { result.now ≡ placements_at (cells_of scene.now) cell }
{
    let cells = scene.tree.cells();
    cells[cell].placements.as_slice()
}

impl<'t> Level<'t> {
    /// A cell that is placed so, of which nothing was shown.
    pub(crate) fn of(cell: usize, orient: Orient, at: Point, depth: u8, is_whole: bool) -> Level<'t>
        ensures cell { result.cell ≡ cell }
        ensures orient { result.orient ≡ orient }
        ensures at { result.at ≡ at }
        ensures depth { result.depth ≡ depth }
        ensures whole { result.is_whole ≡ is_whole }
        ensures run { result.run ≡ None }
        ensures next { result.next ≡ 0 }
    {
        Level {
            cell,
            orient,
            at,
            depth,
            is_whole,
            run: None,
            next: 0,
        }
    }

    /// The cell's number.
    pub(crate) fn cell(&self) -> usize
        ensures { result ≡ self.now.cell }
    {
        self.cell
    }

    /// Whether all that it shows is known to be in the window.
    pub(crate) fn is_whole(&self) -> bool
        ensures { result ≡ self.now.is_whole }
    {
        self.is_whole
    }

    /// How the cell is enlarged, mirrored and turned.
    pub(crate) fn orient(&self) -> Orient
        ensures { result ≡ self.now.orient }
    {
        self.orient
    }

    /// How it is moved.
    pub(crate) fn at(&self) -> Point
        ensures { result ≡ self.now.at }
    {
        self.at
    }

    // The next place of the placement at hand at which its cell may have rows in the window.
    fn next_spot(&mut self, scene: &Scene<'t>) -> Option<Level<'t>>
        requires scene { IsScene scene.now }
        requires level { IsLevel scene.now self.old }
        ensures level { IsLevel scene.now self.new }
        ensures same { IsSamePlace self.old self.new }
        ensures next { self.new.next ≡ self.old.next }
        ensures inner { IfSome result (IsInner scene.now self.old) }
        ensures gives { MatchOption result
            (Skips scene.now.window (run_rest scene.now self.old.orient self.old.at self.old.run) [])
            (λ inner. Skips scene.now.window (run_rest scene.now self.old.orient self.old.at self.old.run)
            (map (marked_image inner.orient inner.at) (marked_of scene.now inner.cell) ++ run_rest scene.now self.old.orient self.old.at self.new.run)) }
    {
        match &mut self.run {
            None => None,
            Some(run) => match run.next(scene, self.cell, self.orient, self.at) {
                None => None,
                Some(spot) => {
                    let is_whole = are_within(run.rows, spot.y, scene.window);
                    Some(Level::of(run.target, run.orient, spot, self.depth + 1, is_whole))
                }
            },
        }
    }

    // The run of a placement of the cell, if the placed cell has something on the pair.
    fn run_of(&self, scene: &Scene<'t>, placement: &'t Placement, number: usize) -> Option<Run<'t>>
        requires scene { IsScene scene.now }
        requires level { IsLevel scene.now self.now }
        requires placed { slice_get (placements_at (cells_of scene.now) self.now.cell) number ≡ Some placement.now }
        ensures run { IfSome result (IsRun scene.now self.now.cell self.now.orient) }
        ensures gives { Skips scene.now.window (map (marked_image self.now.orient self.now.at) (things_at scene.now placement.now))
            (run_rest scene.now self.now.orient self.now.at result) }
    {
        let target = scene.tree.target(self.cell, number);
        let Some(hull) = scene.tree.hull(target, scene.pair) else {
            return None;
        };
        let orient = composed(self.orient, placement.orient);
        Some(Run {
            placement,
            place: 0,
            target,
            orient,
            rows: rows_of(orient, hull),
        })
    }

    // The number of the cell's next placement by whose box it may have something in the window.
    fn onward(&self, scene: &Scene<'t>) -> usize
        requires scene { IsScene scene.now }
        requires level { IsLevel scene.now self.now }
        ensures later { self.now.next ≤ result }
        ensures skips { Skips scene.now.window (placements_rest scene.now self.now.orient self.now.at self.now.cell self.now.next)
            (placements_rest scene.now self.now.orient self.now.at self.now.cell result) }
    {
        next_in(
            spots_in(scene.boxes, self.cell),
            self.next,
            self.orient,
            self.at,
            scene.window,
        )
    }

    /// The next placed cell that may have rows in the window.
    pub(crate) fn next(&mut self, scene: &Scene<'t>) -> Option<Level<'t>>
        requires scene { IsScene scene.now }
        requires level { IsLevel scene.now self.old }
        ensures level { IsLevel scene.now self.new }
        ensures same { IsSamePlace self.old self.new }
        ensures inner { IfSome result (IsInner scene.now self.old) }
        ensures gives { MatchOption result
            (Skips scene.now.window (level_rest scene.now self.old) [])
            (λ inner. Skips scene.now.window (level_rest scene.now self.old)
            (map (marked_image inner.orient inner.at) (marked_of scene.now inner.cell) ++ level_rest scene.now self.new)) }
    {
        loop {
            let found = self.next_spot(scene);
            if found.is_some() {
                return found;
            }
            let next = self.onward(scene);
            let Some(placement) = placements_of(scene, self.cell).get(next) else {
                return None;
            };
            self.run = self.run_of(scene, placement, next);
            self.next = next + 1;
        }
    }
}
