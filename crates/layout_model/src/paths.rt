//! The rectangles that a path is drawn as.
ghost use Rattle.std.specs.Prelude.{◌≡◌, ◌≢◌, ◌^◌, ◌↔◌, ◌≤ℤ◌, ◌⊎◌, ℕ, pos, [], All, Some, IfSome, IfNone, IfOk, IsOk, IsOkAnd, Err};
ghost use Rattle.layout_model.specs.Paths.{HasNoLength, HasLength, HasNoDiagonal, HasNoTurnBack, IsFirstDiagonal, IsFirstTurnBack, HasEmptyEnd, IsDrawable, stretches, rectangles, drawn_path};
ghost use Rattle.layout_model.specs.Layouts.{IsWithin};
ghost use Rattle.layout_model.specs.PathBounds.{IsNearOnPath, IsNearPoint, IsNearBrush, HasTiles};
ghost use Rattle.layout_model.specs.PathLaws.{SegmentsGoSomewhere, SegmentsAreAlongAxes, SegmentsTurnSquarely, RingIsClosed, RingIsOnGrid, RingWindsInside, RingWindsNotOutside, IsOutline};
ghost use Rattle.layout_model.specs.declared.paths.PathBad.TheVariants.{NoLength, Diagonal, TurnBack, EmptyEnd, NoMemory as Wanting};

use crate::courses::{first_diagonal, first_turn_back, has_no_length};
use crate::kept::KeptShape;
use crate::offsets::Offsets;
use crate::pair::Pair;
use crate::rectangles::stretch_shape;
use crate::stretches::{Brush, Walk, has_empty_end};
use geo_stream::NoMemory;
use half_grid::Point;
use std::alloc::Global;

/// Why a path can't be drawn.
#[derive(Clone, Copy, Debug, PartialEq, Eq)]
pub enum PathBad {
    /// All its points are equal, or there are none.
    NoLength,
    /// The point of this number, counted from 0, and the next differ in both coordinates. It is the first such point.
    Diagonal(usize),
    /// From the point of this number the path goes back the way it came. It is the first such point.
    TurnBack(usize),
    /// The first or the last rectangle has no positive length.
    EmptyEnd,
    /// Memory ran out.
    NoMemory,
}

// The shapes of the segments of a path, whose points aren't all equal.
fn draw(
    alloc: Global,
    pair: Pair,
    points: &[Point],
    brush: Brush,
    offsets: &Offsets,
    fixed: bool,
) -> Result<Vec<KeptShape>, NoMemory>
    requires long { HasLength points.now }
    requires points { All IsNearPoint points.now }
    requires brush { IsNearBrush brush }
    ensures { IfOk result (λ shapes.
        shapes.items ≡ drawn_path pair offsets.now fixed points.now brush.half brush.begin brush.end) }
{
    let mut shapes = Vec::new(alloc);
    let Some((start, rest)) = points.split_first() else {
        return Ok(shapes);
    };
    let mut walk = Walk::new(*start, brush);
    for point in rest {
        if walk.turns_at(*point) {
            let shape = stretch_shape(alloc, pair, walk.joint(brush), offsets, fixed)?;
            shapes.push(shape)?;
            walk = walk.round(*point, brush);
        } else {
            walk = walk.on(*point);
        }
    }
    let shape = stretch_shape(alloc, pair, walk.finish(brush), offsets, fixed)?;
    shapes.push(shape)?;
    Ok(shapes)
}

// The first reason why the path can't be drawn, memory aside.
fn fault(points: &[Point], brush: Brush) -> Option<PathBad>
    ensures no_length { (result ≡ Some NoLength) ↔ HasNoLength points.now }
    ensures diagonal { (k : ℕ) → (result ≡ Some (Diagonal k)) ↔ (HasLength points.now × IsFirstDiagonal points.now k) }
    ensures turn_back { (k : ℕ) → (result ≡ Some (TurnBack k))
        ↔ (HasLength points.now × HasNoDiagonal points.now × IsFirstTurnBack points.now k) }
    ensures empty_end { (result ≡ Some EmptyEnd)
        ↔ (HasLength points.now × HasNoDiagonal points.now × HasNoTurnBack points.now
        × HasEmptyEnd (stretches points.now brush.half brush.begin brush.end)) }
    ensures some { IfSome result (λ _. IsDrawable points.now brush.half brush.begin brush.end → ⊥) }
    ensures none { IfNone result (IsDrawable points.now brush.half brush.begin brush.end) }
    ensures memory { result ≢ Some Wanting }
{
    if has_no_length(points) {
        return Some(PathBad::NoLength);
    }
    if let Some(k) = first_diagonal(points) {
        return Some(PathBad::Diagonal(k));
    }
    if let Some(k) = first_turn_back(points) {
        return Some(PathBad::TurnBack(k));
    }
    if has_empty_end(points, brush) {
        return Some(PathBad::EmptyEnd);
    }
    None
}

/// The shapes of a path, a wire along a polyline: a rectangle for each segment, which reaches `half` to each side of
/// it. A segment is longer by `half` at an inner corner, by `begin` at the path's beginning and by `end` at its end,
/// or shorter where these are negative. Points that repeat the one before them, and points between two segments of one
/// direction, are no corners. Each shape has the pair, a copy of the offsets, and `fixed` as given. Lengths are half
/// units, and none is more than 2^41 from 0.
///
/// There are no shapes where `half` is 0. Elsewhere the refusals are tried in the order in which `PathBad` lists them.
pub fn path_shapes(
    alloc: Global,
    pair: Pair,
    points: &[Point],
    half: i64,
    begin: i64,
    end: i64,
    offsets: &Offsets,
    fixed: bool,
) -> Result<Vec<KeptShape>, PathBad>
    requires points { All (IsWithin (2 ^ 41)) points.now }
    requires half_low { pos 0 ≤ℤ half }
    requires half { IsNearOnPath half }
    requires begin { IsNearOnPath begin }
    requires end { IsNearOnPath end }
    ensures none { half ≡ pos 0 → IsOkAnd result (λ shapes. shapes.items ≡ []) }
    ensures shapes { half ≢ pos 0 → IfOk result (λ shapes.
        shapes.items ≡ drawn_path pair offsets.now fixed points.now half begin end) }
    ensures no_length { (result ≡ Err NoLength) ↔ ((half ≢ pos 0) × HasNoLength points.now) }
    ensures diagonal { (k : ℕ) → (result ≡ Err (Diagonal k))
        ↔ ((half ≢ pos 0) × HasLength points.now × IsFirstDiagonal points.now k) }
    ensures turn_back { (k : ℕ) → (result ≡ Err (TurnBack k))
        ↔ ((half ≢ pos 0) × HasLength points.now × HasNoDiagonal points.now × IsFirstTurnBack points.now k) }
    ensures empty_end { (result ≡ Err EmptyEnd)
        ↔ ((half ≢ pos 0) × HasLength points.now × HasNoDiagonal points.now × HasNoTurnBack points.now
        × HasEmptyEnd (stretches points.now half begin end)) }
    ensures ok { half ≢ pos 0 → IsDrawable points.now half begin end → IsOk result ⊎ (result ≡ Err Wanting) }
    ensures drawable { half ≢ pos 0 → IfOk result (λ _. IsDrawable points.now half begin end) }
    ensures memory { result ≡ Err Wanting → (half ≢ pos 0) × IsDrawable points.now half begin end }
    ensures outlines { IfOk result (λ shapes. All (λ shape. IsOutline shape.points) shapes.items) }
    ensures area { half ≢ pos 0 → IfOk result (λ _. All HasTiles (rectangles points.now half begin end)) }
{
    if half == 0 {
        return Ok(Vec::new(alloc));
    }
    let brush = Brush { half, begin, end };
    if let Some(bad) = fault(points, brush) {
        return Err(bad);
    }
    match draw(alloc, pair, points, brush, offsets, fixed) {
        Ok(shapes) => Ok(shapes),
        Err(_) => Err(PathBad::NoMemory),
    }
}

/// What holds of every path and of every rectangle, and costs nothing: each segment goes somewhere, along an axis where
/// no move is diagonal, and square to the one before it where none goes back. The outline of a rectangle is closed, its
/// edges are on the grid, and it winds once round the tiles of the rectangle and round no other.
pub fn path_laws()
    ensures somewhere { SegmentsGoSomewhere }
    ensures axes { SegmentsAreAlongAxes }
    ensures square { SegmentsTurnSquarely }
    ensures closed { RingIsClosed }
    ensures grid { RingIsOnGrid }
    ensures inside { RingWindsInside }
    ensures outside { RingWindsNotOutside }
{}
