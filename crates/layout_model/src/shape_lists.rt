//! The shapes of a cell.
ghost use Rattle.std.specs.Prelude.{◌≡◌, ◌≢◌, ◌<◌, ◌≤◌, ◌+◌, ◌++◌, [], ◌∷◌, length, map, drop, slice_get, Some, OnOk, MatchOption, IsTrue};
ghost use Rattle.layout_model.specs.Hulls.{IsLeastBoxOf};
ghost use Rattle.layout_model.specs.Images.{moved as point_after};
ghost use Rattle.layout_model.specs.Intervals.{HasNoneIn, IsFirstIn};
ghost use Rattle.layout_model.specs.Kept.{points_in};
ghost use Rattle.layout_model.specs.PathBounds.{IsNearPoint, IsNearBrush};
ghost use Rattle.layout_model.specs.Paths.{drawn_along};
ghost use Rattle.layout_model.specs.Repeats.{AreCopies};
ghost use Rattle.layout_model.specs.Segments.{segments_in, moved_segment, stretch_after, AreNearAfter};
ghost use Rattle.layout_model.specs.ShapeLists.{shape_in, shapes_of, shapes_of_run, IsAgain, AreRuns, AreKept, IsRank};
ghost use Rattle.layout_model.specs.declared.shape_lists.Run.{Run as ARun};

use crate::boxes::box_of;
use crate::intervals::Interval;
use crate::kept::{KeptShape, Outline};
use crate::offsets::Offsets;
use crate::pair::Pair;
use crate::points::moved;
use crate::rectangles::{Rectangle, outline_of, ring};
use crate::shared_paths::{SharedPath, stretch_at};
use crate::stretches::{Brush, Segment, Stretch};
use geo_stream::{List, NoMemory};
use half_grid::{Frame, Point};
use std::alloc::Global;
use std::marker::Model;
use std::rc::Rc;

// A shared path that is moved so, with its lengths. Each of its rectangles is a shape.
#[derive(Debug, Drop)]
struct Run {
    path: Rc<Vec<Segment>>,
    by: Point,
    brush: Brush,
    pair: Pair,
    offsets: Offsets,
    is_fixed: bool,
    // So many runs from it on, at least itself, are the same ones with nothing between, as far as was looked.
    times: usize,
    // How many of the shapes that are kept by themselves stand before it.
    after: usize,
    // How many shapes stand before it.
    before: usize,
}

/// The shapes of a cell, in order. Contracts see the list.
///
/// A shape that is pushed takes 32 bytes, and what it has boxed. The shapes of a shared path take 120 bytes and constant
/// time, however many they are, and what their offsets have boxed: each is made when it is asked for. Where no path was
/// pushed, reading a shape is an access to a slice; else it is a bisection of as many runs as there are calls of `push_path`.
#[derive(Debug, Drop)]
pub struct Shapes {
    // Those that are kept by themselves.
    own: List<KeptShape>,
    runs: List<Run>,
    count: usize,
}

impl Model for Shapes {
    ghost use Rattle.std.specs.Prelude.{List};
    ghost use Rattle.layout_model.specs.declared.shapes.Shape.{Shape as AShape};
    ghost use Rattle.layout_model.specs.ShapeLists.{shapes_of, AreShapes};

    ghost Value = { List AShape };

    ghost view = { λ shapes. shapes_of shapes.own shapes.runs };

    ghost invariant = { λ shapes. AreShapes shapes.own shapes.runs shapes.count };
}

// A shape that is kept by itself, or one of a run, by its rectangle.
#[derive(Clone, Copy)]
enum Named<'t> {
    Kept(&'t KeptShape),
    Drawn(Rectangle, &'t Run),
}

/// From a shape on, the next `period` shapes stand `times` times, one after another. Both are at least 1.
#[derive(Clone, Copy, Debug)]
pub struct Copies {
    /// How many shapes are the same ones over and over.
    pub period: usize,
    /// How often they are given.
    pub times: usize,
}

/// One of a cell's shapes: what it is, `shape_in` says.
#[derive(Clone, Copy)]
pub struct ShapeRef<'t> {
    named: Named<'t>,
}

// A segment moved.
#[inline(always)]
fn moved_stretch(stretch: Stretch, by: Point) -> Stretch
    requires from { IsNearPoint (point_after by stretch.from) }
    requires to { IsNearPoint (point_after by stretch.to) }
    ensures { result ≡ stretch_after by stretch }
{
    Stretch {
        from: moved(&stretch.from, by),
        to: moved(&stretch.to, by),
        half: stretch.half,
        before: stretch.before,
        after: stretch.after,
    }
}

// One of the shapes of a run.
#[inline(always)]
fn shape_of_run(run: &Run, j: usize) -> ShapeRef<'_>
    requires near { AreNearAfter run.now.by (segments_in run.now.path.value.items) }
    requires brush { IsNearBrush run.now.brush }
    requires inside { j < length run.now.path.value.items }
    ensures { slice_get (shapes_of_run run.now) j ≡ Some (shape_in result) }
{
    let stretch = stretch_at(run.path.as_slice(), j, run.brush);
    let rectangle = outline_of(moved_stretch(stretch, run.by));
    ShapeRef {
        named: Named::Drawn(rectangle, run),
    }
}

// One of the own shapes.
#[inline(always)]
fn own_shape(own: &[KeptShape], k: usize) -> ShapeRef<'_>
    requires { k < length own.now }
    ensures { slice_get own.now k ≡ Some (shape_in result) }
{
    own[k].by_ref()
}

// One of the own shapes from number `after` on.
fn own_after(own: &[KeptShape], after: usize, k: usize) -> ShapeRef<'_>
    requires after { after ≤ length own.now }
    requires inside { k < length (drop after own.now) }
    ensures { slice_get (drop after own.now) k ≡ Some (shape_in result) }
{
    own_shape(&own[after..], k)
}

// How many of the runs have at most `k` shapes before them.
fn rank(runs: &[Run], k: usize) -> usize
    ensures { IsRank runs.now k result }
{
    let mut low = 0;
    let mut high = runs.len();
    while low < high {
        let middle = low + (high - low) / 2;
        if runs[middle].before <= k {
            low = middle + 1;
        } else {
            high = middle;
        }
    }
    low
}

// Shape `k` where there are runs.
fn shape_among<'t>(own: &'t [KeptShape], runs: &'t [Run], k: usize) -> ShapeRef<'t>
    requires runs { AreRuns (length own.now) 0 0 runs.now }
    requires inside { k < length (shapes_of own.now runs.now) }
    ensures { slice_get (shapes_of own.now runs.now) k ≡ Some (shape_in result) }
{
    let rank = rank(runs, k);
    if rank == 0 {
        return own_shape(own, k);
    }
    let run = &runs[rank - 1];
    let segments = run.path.as_slice();
    let j = k - run.before;
    if j < segments.len() {
        return shape_of_run(run, j);
    }
    own_after(own, run.after, j - segments.len())
}

// Where the run of a number begins, or where all shapes end.
fn start_of(runs: &[Run], number: usize, count: usize) -> usize
    ensures some { (run : ARun) → slice_get runs.now number ≡ Some run → result ≡ run.before }
    ensures none { length runs.now ≤ number → result ≡ count }
{
    if number < runs.len() {
        return runs[number].before;
    }
    count
}

// Whether two lists of segments are the same.
fn are_same(segments: &[Segment], others: &[Segment]) -> bool
    ensures { IsTrue result → segments.now ≡ others.now }
{
    segments == others
}

impl Run {
    // Whether another run is this one, given again: it has as many own shapes before it, both are once at one place, and
    // they share their segments. False where that isn't known: at once where they aren't shared, else after a pass over them.
    fn is_again(&self, other: &Run) -> bool
        ensures { IsTrue result → IsAgain self.now other.now }
    {
        if self.after != other.after {
            return false;
        }
        if self.by != other.by {
            return false;
        }
        if self.pair != other.pair {
            return false;
        }
        if self.brush != other.brush {
            return false;
        }
        if self.is_fixed != other.is_fixed {
            return false;
        }
        if !self.offsets.is_again(&other.offsets) {
            return false;
        }
        if !Rc::ptr_eq(&self.path, &other.path) {
            return false;
        }
        are_same(self.path.as_slice(), other.path.as_slice())
    }
}

// Notes of a run whether the next one is the same: then it is given once more than that.
fn note(runs: &mut List<Run>, k: usize)
    requires { k + 1 < length runs.old }
    ensures { AreKept runs.old runs.new }
{
    let run = &runs.as_slice()[k];
    let next = &runs.as_slice()[k + 1];
    if !run.is_again(next) {
        return;
    }
    let Some(times) = next.times.checked_add(1) else {
        return;
    };
    runs.item_mut(k).times = times;
}

// Notes it of all runs, from the last one down.
fn note_all(runs: &mut List<Run>)
    ensures { AreKept runs.old runs.new }
{
    let mut k = runs.as_slice().len();
    while k > 1 {
        k -= 1;
        note(runs, k - 1);
    }
}

impl Shapes {
    /// No shapes.
    pub fn new(alloc: Global) -> Shapes
        ensures { result ≡ [] }
    {
        Shapes {
            own: List::new(alloc),
            runs: List::new(alloc),
            count: 0,
        }
    }

    /// Puts a shape last.
    #[inline(always)]
    pub fn push(&mut self, shape: KeptShape) -> Result<(), NoMemory>
        ensures { OnOk result (self.new ≡ self.old ++ shape ∷ []) }
    {
        let Some(count) = self.count.checked_add(1) else {
            return Err(NoMemory);
        };
        self.own.push(shape)?;
        self.count = count;
        Ok(())
    }

    /// Puts the shapes of a path last that is moved so, as `path_shapes` gives them with these lengths, on the pair, at the
    /// offsets. It takes constant time and memory.
    pub fn push_path(
        &mut self,
        path: &SharedPath,
        by: Point,
        pair: Pair,
        brush: Brush,
        offsets: Offsets,
        fixed: bool,
    ) -> Result<(), NoMemory>
        requires near { AreNearAfter by path.now }
        requires brush { IsNearBrush brush }
        ensures { OnOk result (self.new ≡ self.old ++ drawn_along pair offsets fixed (map (moved_segment by) path.now) brush.half brush.begin brush.end) }
    {
        let Some(count) = self.count.checked_add(path.segments.len()) else {
            return Err(NoMemory);
        };
        let run = Run {
            path: path.segments.clone()?,
            by,
            brush,
            pair,
            offsets,
            is_fixed: fixed,
            times: 1,
            after: self.own.as_slice().len(),
            before: self.count,
        };
        self.runs.push(run)?;
        self.count = count;
        Ok(())
    }

    /// How many shapes there are.
    #[inline(always)]
    pub fn len(&self) -> usize
        ensures { result ≡ length self.now }
    {
        self.count
    }

    /// Shape `k`, counted from 0, in constant time, or in the logarithm of how often point lists of paths are used again.
    #[inline(always)]
    pub fn get(&self, k: usize) -> ShapeRef<'_>
        requires inside { k < length self.now }
        ensures { slice_get self.now k ≡ Some (shape_in result) }
    {
        let own = self.own.as_slice();
        let runs = self.runs.as_slice();
        if runs.is_empty() {
            return own_shape(own, k);
        }
        shape_among(own, runs, k)
    }

    /// Looks for paths that were put last again and again, on their one place, with nothing between. The shapes stay the
    /// same: `copies_at` says more of them. It takes a pass over the segments of each path that was put last again, and
    /// no memory.
    pub fn find_copies(&mut self)
        ensures { self.new ≡ self.old }
    {
        note_all(&mut self.runs);
    }

    /// How many shapes from shape `k` on are given how often, one after another. A path that `find_copies` found to be put
    /// again and again is one such block, asked for at its first shape; the shapes up to the next path are a block that is
    /// given once. So a pass over all shapes goes from block to block, and over the shapes of each once. It takes a bisection
    /// of the runs.
    pub fn copies_at(&self, k: usize) -> Copies
        requires inside { k < length self.now }
        ensures { AreCopies self.now k result.period result.times }
    {
        let runs = self.runs.as_slice();
        let rank = rank(runs, k);
        if rank > 0 {
            let run = &runs[rank - 1];
            let many = run.path.as_slice().len();
            if run.before == k && many > 0 {
                return Copies {
                    period: many,
                    times: run.times,
                };
            }
        }
        Copies {
            period: start_of(runs, rank, self.count) - k,
            times: 1,
        }
    }
}

impl<'t> ShapeRef<'t> {
    /// Its layer and datatype.
    #[inline(always)]
    pub fn pair(&self) -> Pair
        ensures { result ≡ (shape_in self.now).pair }
    {
        match self.named {
            Named::Kept(shape) => shape.pair(),
            Named::Drawn(_, run) => run.pair,
        }
    }

    /// Whether it is another shape, given again: both are once at the place 0, and share their points. False where that
    /// isn't known: at once where the points aren't shared, else after a pass over them.
    pub fn is_again(&self, other: ShapeRef<'_>) -> bool
        ensures { IsTrue result → shape_in self.now ≡ shape_in other.entry }
    {
        match (self.named, other.named) {
            (Named::Kept(shape), Named::Kept(other)) => shape.is_again(other),
            _ => false,
        }
    }

    /// Whether it may not be enlarged.
    pub fn is_fixed(&self) -> bool
        ensures { result ≡ (shape_in self.now).fixed }
    {
        match self.named {
            Named::Kept(shape) => shape.is_fixed(),
            Named::Drawn(_, run) => run.is_fixed,
        }
    }

    /// Its outline; the last point is the first.
    #[inline(always)]
    pub fn outline(&self) -> Outline<'t>
        ensures { points_in result ≡ (shape_in self.now).points }
    {
        match self.named {
            Named::Kept(shape) => shape.outline(),
            Named::Drawn(rectangle, _) => Outline::Ring(ring(rectangle)),
        }
    }

    /// The least box of its outline, which isn't empty.
    pub fn hull(&self) -> Frame
        requires { (shape_in self.now).points ≢ [] }
        ensures { IsLeastBoxOf (shape_in self.now).points result }
    {
        match self.named {
            Named::Kept(shape) => shape.hull(),
            Named::Drawn(rectangle, _) => box_of(&ring(rectangle)),
        }
    }

    /// How many places there are at which it is.
    #[inline(always)]
    pub fn count(&self) -> u64
        ensures { result ≡ length (shape_in self.now).offsets }
    {
        match self.named {
            Named::Kept(shape) => shape.count(),
            Named::Drawn(_, run) => run.offsets.count(),
        }
    }

    /// Place `k`, counted from 0.
    #[inline(always)]
    pub fn nth(&self, k: u64) -> Point
        requires { k < length (shape_in self.now).offsets }
        ensures { slice_get (shape_in self.now).offsets k ≡ Some result }
    {
        match self.named {
            Named::Kept(shape) => shape.nth(k),
            Named::Drawn(_, run) => run.offsets.nth(k),
        }
    }

    /// The least box of its places, of which there is one at least.
    pub fn spread(&self) -> Frame
        requires { (shape_in self.now).offsets ≢ [] }
        ensures { IsLeastBoxOf (shape_in self.now).offsets result }
    {
        match self.named {
            Named::Kept(shape) => shape.spread(),
            Named::Drawn(_, run) => run.offsets.hull(),
        }
    }

    /// The number of the first place in an interval of an axis, from number `from` on, if there is one, as `Offsets::first_in`
    /// finds it.
    pub fn first_in(&self, interval: Interval, from: u64) -> Option<u64>
        ensures { MatchOption result (HasNoneIn interval (shape_in self.now).offsets from (length (shape_in self.now).offsets)) (IsFirstIn interval (shape_in self.now).offsets from) }
    {
        match self.named {
            Named::Kept(shape) => shape.first_in(interval, from),
            Named::Drawn(_, run) => run.offsets.first_in(interval, from),
        }
    }
}

impl KeptShape {
    /// The shape as one of a cell's.
    #[inline(always)]
    pub fn by_ref(&self) -> ShapeRef<'_>
        ensures { shape_in result ≡ self.now }
    {
        ShapeRef {
            named: Named::Kept(self),
        }
    }
}
