//! The next stop above a list of edges.
ghost use Rattle.std.specs.Prelude.{◌≡◌, ◌≢◌, ◌⊎◌, ◌≤ℤ◌, ◌<ℤ◌, ◌∷◌, All};
ghost use Rattle.half_grid.specs.Meetings.{MeetAt};
ghost use Rattle.scan_line.specs.Turns.{IsLower, DoNotMeet, PassesNext, AreQuiet, IsTurn, way_of};

use crate::runs::Slab;
use half_grid::{Edge, Line, meeting_y};

impl Slab {
    /// The rows of the slab below `y`, where it has rows below and above.
    #[inline]
    pub(crate) fn cut(self, y: i64) -> Slab
        requires { self.y0 <ℤ self.y1 }
        ensures lower { IsLower self result }
        ensures below { self.y0 <ℤ y → result.y1 ≤ℤ y }
        ensures top { (result.y1 ≡ self.y1) ⊎ (result.y1 ≡ y) }
    {
        if self.y0 < y && y < self.y1 {
            return Slab { y0: self.y0, y1: y };
        }
        self
    }

    // The rows of the slab below `y`, which isn't below them all.
    #[inline]
    fn up_to(self, y: i64) -> Slab
        requires rows { self.y0 <ℤ self.y1 }
        requires above { self.y0 <ℤ y }
        ensures lower { IsLower self result }
        ensures below { result.y1 ≤ℤ y }
        ensures top { (result.y1 ≡ self.y1) ⊎ (result.y1 ≡ y) }
    {
        if y < self.y1 {
            return Slab { y0: self.y0, y1: y };
        }
        self
    }
}

// Which way the line goes, as a number.
#[inline]
fn way_of(line: Line) -> u8
    ensures { result ≡ way_of line }
{
    match line {
        Line::Upright(_) => 0,
        Line::Rising(_) => 1,
        Line::Falling(_) => 2,
    }
}

// The rows of the slab below the crossing of the two edges' lines.
#[inline(never)]
fn below_crossing(slab: Slab, e: &Edge, f: &Edge) -> Slab
    requires { slab.y0 <ℤ slab.y1 }
    ensures lower { IsLower slab result }
    ensures apart { DoNotMeet slab.y0 result.y1 e.now f.now }
    ensures top { (result.y1 ≡ slab.y1) ⊎ ((e.now.line ≢ f.now.line) × MeetAt e.now.line f.now.line result.y1) }
{
    match meeting_y(e.line(), f.line()) {
        Some(y) => slab.cut(y),
        None => slab,
    }
}

// The rows of the slab below the meeting of the two edges' lines, quickly where they go the same way.
#[inline]
fn below_meeting(slab: Slab, e: &Edge, f: &Edge) -> Slab
    requires { slab.y0 <ℤ slab.y1 }
    ensures lower { IsLower slab result }
    ensures apart { DoNotMeet slab.y0 result.y1 e.now f.now }
    ensures top { (result.y1 ≡ slab.y1) ⊎ ((e.now.line ≢ f.now.line) × MeetAt e.now.line f.now.line result.y1) }
{
    if way_of(e.line()) == way_of(f.line()) {
        return slab;
    }
    below_crossing(slab, e, f)
}

// The rows of the slab below the edge's end, and below its meeting with the next one.
#[inline]
fn below_turn(slab: Slab, edge: &Edge, rest: &[Edge]) -> Slab
    requires rows { slab.y0 <ℤ slab.y1 }
    requires edge { slab.y0 <ℤ edge.now.y1 }
    ensures lower { IsLower slab result }
    ensures end { result.y1 ≤ℤ edge.now.y1 }
    ensures apart { PassesNext slab.y0 result.y1 edge.now rest.now }
    ensures top { IsTurn (edge.now ∷ rest.now) slab.y1 result.y1 }
{
    let whole = slab.up_to(edge.y1());
    match rest.first() {
        Some(next) => below_meeting(whole, edge, next),
        None => whole,
    }
}

/// The rows of the slab up to the first end of an edge, or meeting of two neighbours.
pub(crate) fn below_stop(slab: Slab, edges: &[Edge]) -> Slab
    requires rows { slab.y0 <ℤ slab.y1 }
    requires edges { All (λ e. slab.y0 <ℤ e.y1) edges.now }
    ensures lower { IsLower slab result }
    ensures quiet { AreQuiet slab.y0 result.y1 edges.now }
    ensures top { IsTurn edges.now slab.y1 result.y1 }
{
    let mut rows = slab;
    let mut left = edges;
    while let Some((edge, rest)) = left.split_first() {
        rows = below_turn(rows, edge, rest);
        left = rest;
    }
    rows
}
