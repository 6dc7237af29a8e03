//! Paths that are kept once, however many records use their points.
ghost use Rattle.std.specs.Prelude.{◌≡◌, ◌<◌, ◌↔◌, ◌-◌, Some, length, slice_get, IsTrue, IfOk, IfSome, IfNone};
ghost use Rattle.layout_model.specs.Paths.{HasLength, HasEmptyEnd, IsCourse, extended, segments_of};
ghost use Rattle.layout_model.specs.Segments.{segments_in};

use crate::courses::{first_diagonal, first_turn_back, has_no_length};
use crate::stretches::{Brush, Segment, Stretch, Walk, is_empty};
use geo_stream::NoMemory;
use half_grid::Point;
use std::alloc::Global;
use std::marker::Model;
use std::rc::Rc;

// Corners don't depend on a path's lengths.
const NO_LENGTHS: Brush = Brush {
    half: 0,
    begin: 0,
    end: 0,
};

/// A path that is kept once, however many records use its points and whatever their lengths. Contracts see its segments,
/// from corner to corner.
#[derive(Debug, Drop)]
pub struct SharedPath {
    pub(crate) segments: Rc<Vec<Segment>>,
}

impl Model for SharedPath {
    ghost use Rattle.std.specs.Prelude.{List};
    ghost use Rattle.half_grid.specs.declared.plane.Point.{Point as APoint};
    ghost use Rattle.layout_model.specs.Segments.{segments_in};

    ghost Value = { List (APoint × APoint) };

    ghost view = { λ path. segments_in path.segments.value.items };
}

// Whether the points are a path for some lengths.
fn is_course(points: &[Point]) -> bool
    ensures { IsTrue result ↔ IsCourse points.now }
{
    if has_no_length(points) {
        return false;
    }
    if first_diagonal(points).is_some() {
        return false;
    }
    first_turn_back(points).is_none()
}

// The segments of a path, whose points aren't all equal.
fn segments(alloc: Global, points: &[Point]) -> Result<Vec<Segment>, NoMemory>
    requires long { HasLength points.now }
    ensures { IfOk result (λ segments. segments_in segments.items ≡ segments_of points.now) }
{
    let mut segments = Vec::new(alloc);
    let Some((start, rest)) = points.split_first() else {
        return Ok(segments);
    };
    let mut walk = Walk::new(*start, NO_LENGTHS);
    for point in rest {
        if walk.turns_at(*point) {
            segments.push(walk.segment())?;
            walk = walk.round(*point, NO_LENGTHS);
        } else {
            walk = walk.on(*point);
        }
    }
    segments.push(walk.segment())?;
    Ok(segments)
}

// Segment `k` of a path with these lengths, and what it is longer by.
pub(crate) fn stretch_at(segments: &[Segment], k: usize, brush: Brush) -> Stretch
    requires inside { k < length segments.now }
    ensures { slice_get (extended brush.half brush.begin brush.end (segments_in segments.now)) k ≡ Some result }
{
    brush.stretch(segments[k], k, segments.len())
}

// The first and the last segment of a path.
#[derive(Clone, Copy)]
struct Ends {
    first: Stretch,
    last: Stretch,
}

// The first and the last segment of a path with these lengths.
fn ends_at(segments: &[Segment], brush: Brush) -> Ends
    requires { 0 < length segments.now }
    ensures first { slice_get (extended brush.half brush.begin brush.end (segments_in segments.now)) 0 ≡ Some result.first }
    ensures last { let all = extended brush.half brush.begin brush.end (segments_in segments.now) in
        slice_get all (length all - 1) ≡ Some result.last }
{
    Ends {
        first: stretch_at(segments, 0, brush),
        last: stretch_at(segments, segments.len() - 1, brush),
    }
}

// Whether the first or the last rectangle of a path with these lengths has no positive length.
fn has_empty_end(segments: &[Segment], brush: Brush) -> bool
    ensures { IsTrue result ↔ HasEmptyEnd (extended brush.half brush.begin brush.end (segments_in segments.now)) }
{
    if segments.is_empty() {
        return false;
    }
    let ends = ends_at(segments, brush);
    if is_empty(ends.first) {
        return true;
    }
    is_empty(ends.last)
}

impl SharedPath {
    /// The path with these points. None where they are no path, whatever its lengths.
    pub fn of(alloc: Global, points: &[Point]) -> Result<Option<SharedPath>, NoMemory>
        ensures segments { IfOk result (λ path. IfSome path (λ path. path ≡ segments_of points.now)) }
        ensures some { IfOk result (λ path. IfSome path (λ _. IsCourse points.now)) }
        ensures none { IfOk result (λ path. IfNone path (IsCourse points.now → ⊥)) }
    {
        if !is_course(points) {
            return Ok(None);
        }
        let segments = segments(alloc, points)?;
        let segments = Rc::new(alloc, segments)?;
        Ok(Some(SharedPath { segments }))
    }

    /// Whether its first or its last rectangle has no positive length, if it is drawn with these lengths. It takes constant
    /// time.
    pub fn has_empty_end(&self, brush: Brush) -> bool
        ensures { IsTrue result ↔ HasEmptyEnd (extended brush.half brush.begin brush.end self.now) }
    {
        has_empty_end(self.segments.as_slice(), brush)
    }
}
