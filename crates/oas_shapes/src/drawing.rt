//! The shapes of a record on a wanted pair.
ghost use Rattle.std.specs.Prelude.{◌≡◌, ◌⊎◌, ◌++◌, ◌^◌, ℕ, [], ◌∷◌, All, OnOk, IfOk, IfErr, Err, option_copied};
ghost use Rattle.half_grid.specs.Outlines.{IsClosed, HasGridEdges};
ghost use Rattle.layout_model.specs.Layouts.{IsShapeOnGrid, AreOffsets, IsWithin};
ghost use Rattle.oas_shapes.specs.Sketches.{points_of};
ghost use Rattle.oas_shapes.specs.Outlines.{figure_outline, polygon_outline as the_polygon_outline, outline_shape, path_shapes_of};
ghost use Rattle.oas_shapes.specs.Repetitions.{offsets_in as all_offsets};
ghost use Rattle.oas_shapes.specs.Rules.{AreNear, KeepsShape, KeepsFigure, KeepsPolygon, KeepsOasisPath, IsBrush, IsLowest};
ghost use Rattle.oas_shapes.specs.Short.{IsShortIn, HasFewPoints, HasFewVertices};
ghost use Rattle.oas_shapes.specs.declared.drawing.Undrawn.TheVariants.{Rule, NoMemory as Wanting};

use crate::corners::{Outline, is_sized, outline_at};
use crate::figures::{Brush, Figure};
use crate::lists::{path_points, polygon_outline};
use crate::outlines::PointList;
use crate::path_lists::PathList;
use crate::paths::{add_along, add_none, add_path};
use crate::repetitions::{alone, offsets_in};
use crate::sharing::Repetition;
use crate::trails::Unplaced;
use half_grid::Point;
use layout_model::{KeptShape, Offsets, Pair, Points, Shape, ShapeBad, Shapes};
use oas_record::Deltas;
use std::alloc::Global;

/// Why a record can't be drawn or placed.
#[derive(Clone, Copy, Debug, PartialEq, Eq)]
pub enum Undrawn {
    /// This is the lowest value rule that it breaks: 1 a size, a vertex or an offset is more than 2^40 grid steps from
    /// 0, 6 an edge isn't at a multiple of 45 degrees, 8 a path can't be drawn, 11 a repetition's dimension is above
    /// 16,777,216.
    Rule(u8),
    /// Memory ran out.
    NoMemory,
}

// The shape of an outline at these offsets.
#[inline(always)]
fn shape_of(
    alloc: Global,
    pair: Pair,
    outline: &[Point],
    offsets: Offsets,
) -> Result<KeptShape, Undrawn>
    requires closed { IsClosed outline.now }
    requires near { AreNear outline.now }
    requires offsets { AreOffsets offsets }
    ensures shape { IfOk result (λ shape. shape ≡ outline_shape pair outline.now offsets) }
    ensures grid { IfOk result IsShapeOnGrid }
    ensures edges { IfOk result (λ _. HasGridEdges outline.now) }
    ensures slant { (rule : ℕ) → result ≡ Err (Rule rule) → (rule ≡ 6) × ¬ HasGridEdges outline.now }
    ensures memory { result ≡ Err Wanting → HasGridEdges outline.now }
{
    match KeptShape::new(alloc, pair, outline, offsets) {
        Ok(shape) => Ok(shape),
        Err(ShapeBad::Slant(_)) => Err(Undrawn::Rule(6)),
        Err(ShapeBad::NoMemory) => Err(Undrawn::NoMemory),
    }
}

// The rule that an outline breaks whose repetition has too large a dimension. Where memory is wanting for its shape,
// its edges have been looked at.
fn rule_of_many(alloc: Global, pair: Pair, outline: &[Point]) -> Undrawn
    requires closed { IsClosed outline.now }
    requires near { AreNear outline.now }
    ensures many { (rule : ℕ) → result ≡ Rule rule → ((rule ≡ 6) × ¬ HasGridEdges outline.now) ⊎ ((rule ≡ 11) × HasGridEdges outline.now) }
    ensures memory { (result ≡ Wanting) → ⊥ }
{
    let Ok(offsets) = alone(alloc) else {
        return Undrawn::NoMemory;
    };
    match shape_of(alloc, pair, outline, offsets) {
        Ok(_) | Err(Undrawn::NoMemory) => Undrawn::Rule(11),
        Err(Undrawn::Rule(rule)) => Undrawn::Rule(rule),
    }
}

// The rule that an outline breaks whose offsets break none, or else the want of memory for these.
fn rule_of_unkept(alloc: Global, pair: Pair, outline: &[Point]) -> Undrawn
    requires closed { IsClosed outline.now }
    requires near { AreNear outline.now }
    ensures slant { (rule : ℕ) → result ≡ Rule rule → (rule ≡ 6) × ¬ HasGridEdges outline.now }
    ensures memory { result ≡ Wanting → HasGridEdges outline.now }
{
    let Ok(offsets) = alone(alloc) else {
        return Undrawn::NoMemory;
    };
    match shape_of(alloc, pair, outline, offsets) {
        Ok(_) => Undrawn::NoMemory,
        Err(bad) => bad,
    }
}

// The shape of a closed outline that is near 0, repeated so.
#[inline(always)]
fn repeated(
    alloc: Global,
    pair: Pair,
    outline: &[Point],
    repetition: Option<&Repetition<'_>>,
) -> Result<KeptShape, Undrawn>
    requires closed { IsClosed outline.now }
    requires near { AreNear outline.now }
    ensures shape { IfOk result (λ shape. shape ≡ outline_shape pair outline.now (all_offsets (option_copied repetition.entry))) }
    ensures grid { IfOk result IsShapeOnGrid }
    ensures kept { IfOk result (λ _. (rule : ℕ) → KeepsShape outline.now (option_copied repetition.entry) rule) }
    ensures broken { (rule : ℕ) → result ≡ Err (Rule rule) → IsLowest (KeepsShape outline.now (option_copied repetition.entry)) rule }
    ensures memory { IsShortIn (option_copied repetition.entry) → result ≡ Err Wanting
        → (rule : ℕ) → KeepsShape outline.now (option_copied repetition.entry) rule }
{
    match offsets_in(alloc, repetition) {
        Ok(offsets) => shape_of(alloc, pair, outline, offsets),
        Err(Unplaced::Far) => Err(Undrawn::Rule(1)),
        Err(Unplaced::Many) => Err(rule_of_many(alloc, pair, outline)),
        Err(Unplaced::Unkept) => Err(rule_of_unkept(alloc, pair, outline)),
        Err(Unplaced::NoMemory) => Err(Undrawn::NoMemory),
    }
}

// Adds it to the shapes.
#[inline(always)]
fn add(
    alloc: Global,
    pair: Pair,
    outline: &[Point],
    repetition: Option<&Repetition<'_>>,
    shapes: &mut Shapes,
) -> Result<(), Undrawn>
    requires closed { IsClosed outline.now }
    requires near { AreNear outline.now }
    ensures shapes { OnOk result (shapes.new ≡ shapes.old ++ outline_shape pair outline.now (all_offsets (option_copied repetition.entry)) ∷ []) }
    ensures grid { All IsShapeOnGrid shapes.old → OnOk result (All IsShapeOnGrid shapes.new) }
    ensures kept { OnOk result ((rule : ℕ) → KeepsShape outline.now (option_copied repetition.entry) rule) }
    ensures broken { (rule : ℕ) → result ≡ Err (Rule rule) → IsLowest (KeepsShape outline.now (option_copied repetition.entry)) rule }
    ensures memory { IsShortIn (option_copied repetition.entry) → result ≡ Err Wanting
        → (rule : ℕ) → KeepsShape outline.now (option_copied repetition.entry) rule }
{
    match repeated(alloc, pair, outline, repetition) {
        Ok(shape) => match shapes.push(shape) {
            Ok(()) => Ok(()),
            Err(_) => Err(Undrawn::NoMemory),
        },
        Err(bad) => Err(bad),
    }
}

// Adds the shape of an outline of three or four corners.
#[inline(always)]
fn add_outline(
    alloc: Global,
    pair: Pair,
    outline: Outline,
    repetition: Option<&Repetition<'_>>,
    shapes: &mut Shapes,
) -> Result<(), Undrawn>
    requires near { AreNear (points_of outline) }
    ensures shapes { OnOk result (shapes.new ≡ shapes.old ++ outline_shape pair (points_of outline) (all_offsets (option_copied repetition.entry)) ∷ []) }
    ensures grid { All IsShapeOnGrid shapes.old → OnOk result (All IsShapeOnGrid shapes.new) }
    ensures kept { OnOk result ((rule : ℕ) → KeepsShape (points_of outline) (option_copied repetition.entry) rule) }
    ensures broken { (rule : ℕ) → result ≡ Err (Rule rule) → IsLowest (KeepsShape (points_of outline) (option_copied repetition.entry)) rule }
    ensures memory { IsShortIn (option_copied repetition.entry) → result ≡ Err Wanting
        → (rule : ℕ) → KeepsShape (points_of outline) (option_copied repetition.entry) rule }
{
    match outline {
        Outline::Three(a, b, c) => add(alloc, pair, &[a, b, c, a], repetition, shapes),
        Outline::Four(a, b, c, d) => add(alloc, pair, &[a, b, c, d, a], repetition, shapes),
    }
}

/// Adds the shape of a RECTANGLE, a TRAPEZOID or a CTRAPEZOID at this position, repeated so. A rule that it breaks is
/// told even where memory is wanting, unless the repetition lists more than twelve places.
#[inline(always)]
pub fn draw_figure(
    alloc: Global,
    pair: Pair,
    at: Point,
    figure: Figure,
    repetition: Option<&Repetition<'_>>,
    shapes: &mut Shapes,
) -> Result<(), Undrawn>
    requires at { IsWithin (2 ^ 40) at }
    ensures shapes { OnOk result (shapes.new ≡ shapes.old ++ outline_shape pair (figure_outline at figure) (all_offsets (option_copied repetition.entry)) ∷ []) }
    ensures grid { All IsShapeOnGrid shapes.old → OnOk result (All IsShapeOnGrid shapes.new) }
    ensures kept { OnOk result ((rule : ℕ) → KeepsFigure at figure (option_copied repetition.entry) rule) }
    ensures broken { (rule : ℕ) → result ≡ Err (Rule rule) → IsLowest (KeepsFigure at figure (option_copied repetition.entry)) rule }
    ensures memory { IsShortIn (option_copied repetition.entry) → result ≡ Err Wanting
        → (rule : ℕ) → KeepsFigure at figure (option_copied repetition.entry) rule }
{
    if !is_sized(figure) {
        return Err(Undrawn::Rule(1));
    }
    match outline_at(at, figure) {
        Some(outline) => add_outline(alloc, pair, outline, repetition, shapes),
        None => Err(Undrawn::Rule(1)),
    }
}

// Adds the shape of a polygon at this position, repeated so, with points of its own.
fn draw_written(
    alloc: Global,
    pair: Pair,
    at: Point,
    points: &Deltas<'_>,
    repetition: Option<&Repetition<'_>>,
    shapes: &mut Shapes,
) -> Result<(), Undrawn>
    requires at { IsWithin (2 ^ 40) at }
    ensures shapes { OnOk result (shapes.new ≡ shapes.old ++ outline_shape pair (the_polygon_outline at points.now) (all_offsets (option_copied repetition.entry)) ∷ []) }
    ensures grid { All IsShapeOnGrid shapes.old → OnOk result (All IsShapeOnGrid shapes.new) }
    ensures kept { OnOk result ((rule : ℕ) → KeepsPolygon at points.now (option_copied repetition.entry) rule) }
    ensures broken { (rule : ℕ) → result ≡ Err (Rule rule) → IsLowest (KeepsPolygon at points.now (option_copied repetition.entry)) rule }
    ensures memory { HasFewVertices points.now → IsShortIn (option_copied repetition.entry) → result ≡ Err Wanting
        → (rule : ℕ) → KeepsPolygon at points.now (option_copied repetition.entry) rule }
{
    match polygon_outline(alloc, at, points) {
        Ok(outline) => add(alloc, pair, outline.as_slice(), repetition, shapes),
        Err(Unplaced::Far) => Err(Undrawn::Rule(1)),
        Err(_) => Err(Undrawn::NoMemory),
    }
}

// The shape of an outline that keeps the rules, at these offsets.
fn made_shape(
    alloc: Global,
    pair: Pair,
    outline: Points,
    offsets: Offsets,
) -> Result<KeptShape, Undrawn>
    ensures shape { IfOk result (λ shape. shape ≡ outline_shape pair outline offsets) }
    ensures memory { IfErr result (λ bad. bad ≡ Wanting) }
{
    let shape = Shape {
        pair,
        points: outline,
        offsets,
        fixed: false,
    };
    match KeptShape::of(alloc, shape) {
        Ok(kept) => Ok(kept),
        Err(_) => Err(Undrawn::NoMemory),
    }
}

// The shape of an outline that keeps the rules, repeated so.
fn repeated_made(
    alloc: Global,
    pair: Pair,
    outline: Points,
    repetition: Option<&Repetition<'_>>,
) -> Result<KeptShape, Undrawn>
    requires closed { IsClosed outline }
    requires near { AreNear outline }
    requires edges { HasGridEdges outline }
    ensures shape { IfOk result (λ shape. shape ≡ outline_shape pair outline (all_offsets (option_copied repetition.entry))) }
    ensures grid { IfOk result IsShapeOnGrid }
    ensures kept { IfOk result (λ _. (rule : ℕ) → KeepsShape outline (option_copied repetition.entry) rule) }
    ensures broken { (rule : ℕ) → result ≡ Err (Rule rule) → IsLowest (KeepsShape outline (option_copied repetition.entry)) rule }
{
    match offsets_in(alloc, repetition) {
        Ok(offsets) => made_shape(alloc, pair, outline, offsets),
        Err(Unplaced::Far) => Err(Undrawn::Rule(1)),
        Err(Unplaced::Many) => Err(Undrawn::Rule(11)),
        Err(Unplaced::Unkept) => Err(Undrawn::NoMemory),
        Err(Unplaced::NoMemory) => Err(Undrawn::NoMemory),
    }
}

// Adds it to the shapes.
fn add_made(
    alloc: Global,
    pair: Pair,
    outline: Points,
    repetition: Option<&Repetition<'_>>,
    shapes: &mut Shapes,
) -> Result<(), Undrawn>
    requires closed { IsClosed outline }
    requires near { AreNear outline }
    requires edges { HasGridEdges outline }
    ensures shapes { OnOk result (shapes.new ≡ shapes.old ++ outline_shape pair outline (all_offsets (option_copied repetition.entry)) ∷ []) }
    ensures grid { All IsShapeOnGrid shapes.old → OnOk result (All IsShapeOnGrid shapes.new) }
    ensures kept { OnOk result ((rule : ℕ) → KeepsShape outline (option_copied repetition.entry) rule) }
    ensures broken { (rule : ℕ) → result ≡ Err (Rule rule) → IsLowest (KeepsShape outline (option_copied repetition.entry)) rule }
{
    match repeated_made(alloc, pair, outline, repetition) {
        Ok(shape) => match shapes.push(shape) {
            Ok(()) => Ok(()),
            Err(_) => Err(Undrawn::NoMemory),
        },
        Err(bad) => Err(bad),
    }
}

/// Adds the shape of a POLYGON at this position, repeated so. Where the outline of its list was made, it shares the
/// points, and takes no longer than its repetition. A rule that it breaks is told even where memory is wanting, unless
/// its outline or the repetition has more than twelve places.
pub fn draw_polygon(
    alloc: Global,
    pair: Pair,
    at: Point,
    points: &PointList<'_>,
    repetition: Option<&Repetition<'_>>,
    shapes: &mut Shapes,
) -> Result<(), Undrawn>
    requires at { IsWithin (2 ^ 40) at }
    ensures shapes { OnOk result (shapes.new ≡ shapes.old ++ outline_shape pair (the_polygon_outline at points.now) (all_offsets (option_copied repetition.entry)) ∷ []) }
    ensures grid { All IsShapeOnGrid shapes.old → OnOk result (All IsShapeOnGrid shapes.new) }
    ensures kept { OnOk result ((rule : ℕ) → KeepsPolygon at points.now (option_copied repetition.entry) rule) }
    ensures broken { (rule : ℕ) → result ≡ Err (Rule rule) → IsLowest (KeepsPolygon at points.now (option_copied repetition.entry)) rule }
    ensures memory { HasFewVertices points.now → IsShortIn (option_copied repetition.entry) → result ≡ Err Wanting
        → (rule : ℕ) → KeepsPolygon at points.now (option_copied repetition.entry) rule }
{
    let Some(made) = points.made() else {
        return draw_written(alloc, pair, at, points.written(), repetition, shapes);
    };
    match made.at(at) {
        Ok(outline) => add_made(alloc, pair, outline, repetition, shapes),
        Err(Unplaced::Far) => Err(Undrawn::Rule(1)),
        Err(_) => Err(Undrawn::NoMemory),
    }
}

// Adds the shapes of a path at this position, whose lengths are near 0, repeated so.
fn draw_course(
    alloc: Global,
    pair: Pair,
    at: Point,
    brush: Brush,
    points: &Deltas<'_>,
    repetition: Option<&Repetition<'_>>,
    shapes: &mut Shapes,
) -> Result<(), Undrawn>
    requires at { IsWithin (2 ^ 40) at }
    requires brush { IsBrush brush }
    ensures shapes { OnOk result (shapes.new ≡ shapes.old ++ path_shapes_of pair at brush points.now (all_offsets (option_copied repetition.entry))) }
    ensures grid { All IsShapeOnGrid shapes.old → OnOk result (All IsShapeOnGrid shapes.new) }
    ensures kept { OnOk result ((rule : ℕ) → KeepsOasisPath at brush points.now (option_copied repetition.entry) rule) }
    ensures broken { (rule : ℕ) → result ≡ Err (Rule rule) → IsLowest (KeepsOasisPath at brush points.now (option_copied repetition.entry)) rule }
    ensures memory { HasFewPoints points.now → IsShortIn (option_copied repetition.entry) → result ≡ Err Wanting
        → (rule : ℕ) → KeepsOasisPath at brush points.now (option_copied repetition.entry) rule }
{
    match path_points(alloc, at, points) {
        Ok(places) => add_path(
            alloc,
            pair,
            places.as_slice(),
            brush.halves(),
            repetition,
            shapes,
        ),
        Err(Unplaced::Far) => Err(Undrawn::Rule(1)),
        Err(_) => Err(Undrawn::NoMemory),
    }
}

/// Adds the shapes of a PATH at this position, repeated so. One without width has none, but its numbers are looked at.
/// Where the segments of its list were made, it shares them, and takes no longer than its repetition. A
/// rule that it breaks is told even where memory is wanting, unless its points or the repetition list more than twelve
/// places.
pub fn draw_path(
    alloc: Global,
    pair: Pair,
    at: Point,
    brush: Brush,
    points: &PathList<'_>,
    repetition: Option<&Repetition<'_>>,
    shapes: &mut Shapes,
) -> Result<(), Undrawn>
    requires at { IsWithin (2 ^ 40) at }
    ensures shapes { OnOk result (shapes.new ≡ shapes.old ++ path_shapes_of pair at brush points.now (all_offsets (option_copied repetition.entry))) }
    ensures grid { All IsShapeOnGrid shapes.old → OnOk result (All IsShapeOnGrid shapes.new) }
    ensures kept { OnOk result ((rule : ℕ) → KeepsOasisPath at brush points.now (option_copied repetition.entry) rule) }
    ensures broken { (rule : ℕ) → result ≡ Err (Rule rule) → IsLowest (KeepsOasisPath at brush points.now (option_copied repetition.entry)) rule }
    ensures memory { HasFewPoints points.now → IsShortIn (option_copied repetition.entry) → result ≡ Err Wanting
        → (rule : ℕ) → KeepsOasisPath at brush points.now (option_copied repetition.entry) rule }
{
    if !brush.is_near() {
        return Err(Undrawn::Rule(1));
    }
    let Some(made) = points.made() else {
        return draw_course(alloc, pair, at, brush, points.written(), repetition, shapes);
    };
    let Some(by) = made.way_to(at) else {
        return draw_course(alloc, pair, at, brush, points.written(), repetition, shapes);
    };
    let halves = brush.halves();
    if halves.has_no_width() {
        return add_none(alloc, repetition);
    }
    let Some(path) = made.drawn_by(halves) else {
        return draw_course(alloc, pair, at, brush, points.written(), repetition, shapes);
    };
    add_along(alloc, pair, path, by, halves, repetition, shapes)
}
