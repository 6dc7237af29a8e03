//! The segments of a path, each with what it is longer by at its two ends.
ghost use Rattle.std.specs.Prelude.{◌≡◌, ◌<◌, ◌-ℤ◌, ◌∷◌, Some, slice_get, length, ◌-◌, ◌+◌, IsTrue, ◌↔◌};
ghost use Rattle.layout_model.specs.Paths.{direction_of, later, distance_along, length_of, stretches, HasLength, HasEmptyEnd, IsEmpty};
ghost use Rattle.layout_model.specs.PathBounds.{IsShort};
ghost use Rattle.layout_model.specs.Segments.{segment_of, ends_of};
ghost use Rattle.layout_model.specs.Walks.{turns_at, walk_from, walk_on, walk_round, stretch_of};

use crate::directions::{Direction, direction_to, is_turn, later};
use half_grid::Point;

/// The lengths of a path, in half units.
#[derive(Clone, Copy, Debug, PartialEq)]
pub struct Brush {
    /// Half of its width.
    pub half: i64,
    /// What it is longer by at its beginning, or shorter where it is negative.
    pub begin: i64,
    /// What it is longer by at its end, or shorter where it is negative.
    pub end: i64,
}

impl Brush {
    // What segment `k` of a path is longer by at its beginning.
    fn before(self, k: usize) -> i64
        ensures first { k ≡ 0 → result ≡ self.begin }
        ensures later { 0 < k → result ≡ self.half }
    {
        if k == 0 {
            return self.begin;
        }
        self.half
    }

    // What segment `k` of `many` is longer by at its end.
    fn after(self, k: usize, many: usize) -> i64
        requires { k < many }
        ensures last { k + 1 ≡ many → result ≡ self.end }
        ensures earlier { k + 1 < many → result ≡ self.half }
    {
        if k == many - 1 {
            return self.end;
        }
        self.half
    }

    // Segment `k` of `many`, with its lengths.
    pub(crate) fn stretch(self, segment: Segment, k: usize, many: usize) -> Stretch
        requires { k < many }
        ensures from { result.from ≡ segment.from }
        ensures to { result.to ≡ segment.to }
        ensures half { result.half ≡ self.half }
        ensures first { k ≡ 0 → result.before ≡ self.begin }
        ensures later { 0 < k → result.before ≡ self.half }
        ensures last { k + 1 ≡ many → result.after ≡ self.end }
        ensures earlier { k + 1 < many → result.after ≡ self.half }
    {
        Stretch {
            from: segment.from,
            to: segment.to,
            half: self.half,
            before: self.before(k),
            after: self.after(k, many),
        }
    }
}

/// A segment of a path with the half width, and what it is longer by at its beginning and at its end.
#[derive(Clone, Copy)]
pub(crate) struct Stretch {
    pub from: Point,
    pub to: Point,
    pub half: i64,
    pub before: i64,
    pub after: i64,
}

/// A segment of a path, from corner to corner.
#[derive(Clone, Copy, Debug, PartialEq)]
pub(crate) struct Segment {
    pub from: Point,
    pub to: Point,
}

/// How far one has come along a path.
#[derive(Clone, Copy)]
pub(crate) struct Walk {
    /// Where the current segment began.
    pub from: Point,
    /// The last point reached.
    pub last: Point,
    /// The direction of the last move that has one.
    pub heading: Direction,
    /// What the current segment is longer by at its beginning.
    pub before: i64,
}

impl Walk {
    // At the first point of a path.
    pub(crate) fn new(point: Point, brush: Brush) -> Walk
        ensures { result ≡ walk_from brush point }
    {
        Walk {
            from: point,
            last: point,
            heading: Direction::Still,
            before: brush.begin,
        }
    }

    // Whether the current segment ends where the way to the point begins.
    pub(crate) fn turns_at(self, point: Point) -> bool
        ensures { result ≡ turns_at self point }
    {
        is_turn(self.heading, direction_to(self.last, point))
    }

    // On to the point, along the current segment.
    pub(crate) fn on(self, point: Point) -> Walk
        ensures { result ≡ walk_on self point }
    {
        Walk {
            from: self.from,
            last: point,
            heading: later(self.heading, direction_to(self.last, point)),
            before: self.before,
        }
    }

    // On to the point, along a new segment.
    pub(crate) fn round(self, point: Point, brush: Brush) -> Walk
        ensures { result ≡ walk_round brush self point }
    {
        Walk {
            from: self.last,
            last: point,
            heading: direction_to(self.last, point),
            before: brush.half,
        }
    }

    // The current segment, as far as it goes.
    pub(crate) fn segment(self) -> Segment
        ensures { segment_of result ≡ ends_of self }
    {
        Segment {
            from: self.from,
            to: self.last,
        }
    }

    // The current segment as one that ends at another.
    pub(crate) fn joint(self, brush: Brush) -> Stretch
        ensures { result ≡ stretch_of brush brush.half self }
    {
        Stretch {
            from: self.from,
            to: self.last,
            half: brush.half,
            before: self.before,
            after: brush.half,
        }
    }

    // The current segment as the last one.
    pub(crate) fn finish(self, brush: Brush) -> Stretch
        ensures { result ≡ stretch_of brush brush.end self }
    {
        Stretch {
            from: self.from,
            to: self.last,
            half: brush.half,
            before: self.before,
            after: brush.end,
        }
    }
}

// The first and the last segment of a path.
#[derive(Clone, Copy)]
struct Ends {
    first: Stretch,
    last: Stretch,
}

// The first and the last segment of the path from this point along the rest, which aren't all equal to it.
fn find_ends(start: Point, rest: &[Point], brush: Brush) -> Ends
    requires { HasLength (start ∷ rest.now) }
    ensures first { slice_get (stretches (start ∷ rest.now) brush.half brush.begin brush.end) 0 ≡ Some result.first }
    ensures last { let all = stretches (start ∷ rest.now) brush.half brush.begin brush.end in
        slice_get all (length all - 1) ≡ Some result.last }
{
    let mut walk = Walk::new(start, brush);
    let mut first = None;
    for point in rest {
        if walk.turns_at(*point) {
            first = Some(first.unwrap_or(walk.joint(brush)));
            walk = walk.round(*point, brush);
        } else {
            walk = walk.on(*point);
        }
    }
    let last = walk.finish(brush);
    Ends {
        first: first.unwrap_or(last),
        last,
    }
}

// Y of the second point less Y of the first.
fn rise(from: Point, to: Point) -> i128
    ensures value { result ≡ to.y -ℤ from.y }
    ensures small { IsShort result }
{
    to.y as i128 - from.y as i128
}

// X of the second point less X of the first.
fn run(from: Point, to: Point) -> i128
    ensures value { result ≡ to.x -ℤ from.x }
    ensures small { IsShort result }
{
    to.x as i128 - from.x as i128
}

// How far it is from a to b.
fn distance(a: Point, b: Point) -> i128
    ensures value { result ≡ distance_along (direction_of a b) a b }
    ensures small { IsShort result }
{
    match direction_to(a, b) {
        Direction::East => run(a, b),
        Direction::West => run(b, a),
        Direction::North => rise(a, b),
        Direction::South => rise(b, a),
        Direction::Still => 0,
    }
}

fn length(s: Stretch) -> i128
    ensures { result ≡ length_of s }
{
    distance(s.from, s.to) + s.before as i128 + s.after as i128
}

pub(crate) fn is_empty(s: Stretch) -> bool
    ensures { IsTrue result ↔ IsEmpty s }
{
    length(s) <= 0
}

// Whether the first or the last segment of a path, whose points aren't all equal, has no positive length.
pub(crate) fn has_empty_end(points: &[Point], brush: Brush) -> bool
    requires { HasLength points.now }
    ensures { IsTrue result ↔ HasEmptyEnd (stretches points.now brush.half brush.begin brush.end) }
{
    let Some((start, rest)) = points.split_first() else {
        return false;
    };
    let ends = find_ends(*start, rest, brush);
    if is_empty(ends.first) {
        return true;
    }
    is_empty(ends.last)
}
