//! The shapes of boundaries and paths.
ghost use Rattle.std.specs.Prelude.{◌≡◌, ◌≤◌, ◌↔◌, ◌++◌, ℕ, pos, ◌≤ℤ◌, unsigned_abs, true, [], ◌∷◌, length};
ghost use Rattle.std.specs.Prelude.{All, IsTrue, OnOk, IfOk, Err};
ghost use Rattle.geo_stream.specs.Refusals.{IfFault};
ghost use Rattle.geo_stream.specs.declared.refusal.Refusal.TheVariants.{NoMemory as Wanting};
ghost use Rattle.half_grid.specs.Outlines.{IsClosed};
ghost use Rattle.layout_model.specs.Layouts.{IsShapeOnGrid};
ghost use Rattle.gds_reader.specs.Brushes.{brush_kept, refusal_by, IsNearBrush};
ghost use Rattle.layout_model.specs.PathBounds.{IsNearOnPath};
ghost use Rattle.gds_reader.specs.Elements.{IsFilePoint, KeepsPathOf, KeepsOf, path_kept, shapes_kept};
ghost use Rattle.gds_reader.specs.Meaning.{boundary_shape, path_shapes_of, is_drawn};
ghost use Rattle.gds_reader.specs.Refused.{IsRefusedBy, BreaksNone};
ghost use Rattle.gds_reader.specs.Values.{KeepsBoundary, KeepsGdsiiPath, extension};

use crate::elements::Element;
use crate::refusing::GdsBad;
use gds_record::Kind;
use geo_stream::{NoMemory, Refusal};
use half_grid::Point;
use layout_model::{KeptShape, Offsets, Pair, PathBad, ShapeBad, Shapes, path_shapes};
use std::alloc::Global;

/// Where an element is without a placement.
pub(crate) const ORIGIN: Point = Point { x: 0, y: 0 };

/// A boundary has at least this many points.
const LEAST: usize = 4;

fn are_same(a: Point, b: Point) -> bool
    ensures { IsTrue result ↔ (a ≡ b) }
{
    a == b
}

// Whether the last point is the first; there are some.
fn is_closed(points: &[Point]) -> bool
    requires { 1 ≤ length points.now }
    ensures { IsTrue result ↔ IsClosed points.now }
{
    are_same(points[0], points[points.len() - 1])
}

// The shape of a boundary whose XY is at this offset.
fn shape_of_boundary(
    alloc: Global,
    element: &Element,
    points: &[Point],
    at: usize,
) -> Result<KeptShape, Refusal<GdsBad>>
    requires count { length points.now ≤ 8191 }
    requires points { All IsFilePoint points.now }
    ensures shape { IfOk result (λ shape. shape ≡ boundary_shape element.now.pair points.now) }
    ensures grid { IfOk result IsShapeOnGrid }
    ensures kept { IfOk result (λ _. (rule : ℕ) → KeepsBoundary points.now rule) }
    ensures broken { IfFault result (IsRefusedBy (KeepsBoundary points.now) at) }
    ensures memory { result ≡ Err Wanting → BreaksNone (KeepsBoundary points.now) }
{
    if points.len() < LEAST {
        return Err(Refusal::Fault(GdsBad::Value(at, 10)));
    }
    if !is_closed(points) {
        return Err(Refusal::Fault(GdsBad::Value(at, 11)));
    }
    let offsets = Offsets::list(alloc, &[ORIGIN])?;
    match KeptShape::new(alloc, element.pair, points, offsets) {
        Ok(shape) => Ok(shape),
        Err(ShapeBad::Slant(_)) => Err(Refusal::Fault(GdsBad::Value(at, 12))),
        Err(ShapeBad::NoMemory) => Err(Refusal::NoMemory),
    }
}

// The half width of a path, and how far it goes beyond its first point and its last.
#[derive(Clone, Copy)]
struct Brush {
    half: i64,
    begin: i64,
    end: i64,
}

impl Element {
    // Half of the path's width.
    fn half_width(&self) -> i64
        ensures width { result ≡ pos (unsigned_abs self.now.width) }
        ensures low { pos 0 ≤ℤ result }
        ensures near { IsNearOnPath result }
    {
        i64::from(self.width).abs()
    }

    // How far a path goes beyond a point at its end, where this extension is written.
    fn extension(&self, written: i32) -> i64
        ensures extension { result ≡ extension self.now.path_type (pos (unsigned_abs self.now.width)) written }
        ensures near { IsNearOnPath result }
    {
        match self.path_type {
            2 => self.half_width(),
            4 => 2 * i64::from(written),
            _ => 0,
        }
    }

    fn brush(&self) -> Brush
        ensures brush { result ≡ brush_kept self.now }
        ensures near { IsNearBrush result }
    {
        Brush {
            half: self.half_width(),
            begin: self.extension(self.begin),
            end: self.extension(self.end),
        }
    }
}

// Why a path whose XY is at this offset isn't drawn: it breaks its rule, or memory ran out.
fn path_refusal(bad: PathBad, at: usize) -> Refusal<GdsBad>
    ensures { result ≡ refusal_by bad at }
{
    match bad {
        PathBad::NoMemory => Refusal::NoMemory,
        PathBad::NoLength | PathBad::Diagonal(_) | PathBad::TurnBack(_) | PathBad::EmptyEnd =>
            Refusal::Fault(GdsBad::Value(at, 14)),
    }
}

// The shapes of a path whose XY is at this offset.
fn shapes_of_path(
    alloc: Global,
    pair: Pair,
    points: &[Point],
    brush: Brush,
    fixed: bool,
    at: usize,
) -> Result<Vec<KeptShape>, Refusal<GdsBad>>
    requires points { All IsFilePoint points.now }
    requires brush { IsNearBrush brush }
    ensures shapes { IfOk result (λ shapes. shapes.items
        ≡ path_shapes_of pair fixed brush.half brush.begin brush.end points.now) }
    ensures grid { IfOk result (λ shapes. All IsShapeOnGrid shapes.items) }
    ensures kept { IfOk result (λ _. (rule : ℕ) → KeepsGdsiiPath brush.half brush.begin brush.end points.now rule) }
    ensures broken { IfFault result (IsRefusedBy (KeepsGdsiiPath brush.half brush.begin brush.end points.now) at) }
    ensures memory { result ≡ Err Wanting → (rule : ℕ) → KeepsGdsiiPath brush.half brush.begin brush.end points.now rule }
{
    let Brush { half, begin, end } = brush;
    let offsets = Offsets::list(alloc, &[ORIGIN])?;
    match path_shapes(alloc, pair, points, half, begin, end, &offsets, fixed) {
        Ok(shapes) => Ok(shapes),
        Err(bad) => Err(path_refusal(bad, at)),
    }
}

fn push_all(list: &mut Shapes, shapes: Vec<KeptShape>) -> Result<(), NoMemory>
    ensures { OnOk result (list.new ≡ list.old ++ shapes.items) }
{
    for shape in shapes {
        list.push(shape)?;
    }
    Ok(())
}

fn draw_boundary(
    alloc: Global,
    element: &Element,
    points: &[Point],
    at: usize,
    shapes: &mut Shapes,
) -> Result<(), Refusal<GdsBad>>
    requires count { length points.now ≤ 8191 }
    requires points { All IsFilePoint points.now }
    ensures shapes { OnOk result (shapes.new ≡ shapes.old ++ boundary_shape element.now.pair points.now ∷ []) }
    ensures grid { All IsShapeOnGrid shapes.old → OnOk result (All IsShapeOnGrid shapes.new) }
    ensures kept { OnOk result ((rule : ℕ) → KeepsBoundary points.now rule) }
    ensures broken { IfFault result (IsRefusedBy (KeepsBoundary points.now) at) }
    ensures memory { result ≡ Err Wanting → BreaksNone (KeepsBoundary points.now) }
{
    let shape = shape_of_boundary(alloc, element, points, at)?;
    shapes.push(shape)?;
    Ok(())
}

fn draw_path(
    alloc: Global,
    element: &Element,
    points: &[Point],
    at: usize,
    shapes: &mut Shapes,
) -> Result<(), Refusal<GdsBad>>
    requires points { All IsFilePoint points.now }
    ensures shapes { OnOk result (shapes.new ≡ shapes.old ++ path_kept element.now points.now) }
    ensures grid { All IsShapeOnGrid shapes.old → OnOk result (All IsShapeOnGrid shapes.new) }
    ensures kept { OnOk result ((rule : ℕ) → KeepsPathOf element.now points.now rule) }
    ensures broken { IfFault result (IsRefusedBy (KeepsPathOf element.now points.now) at) }
    ensures memory { result ≡ Err Wanting → BreaksNone (KeepsPathOf element.now points.now) }
{
    let fixed = element.width < 0;
    match shapes_of_path(alloc, element.pair, points, element.brush(), fixed, at) {
        Ok(drawn) => {
            push_all(shapes, drawn)?;
            Ok(())
        }
        Err(refusal) => Err(refusal),
    }
}

/// Draws an element with these points that is on a wanted pair. `at` is the offset of its XY. A rule that it breaks is
/// reported even where memory runs out.
#[inline(always)]
pub(crate) fn draw(
    alloc: Global,
    element: &Element,
    points: &[Point],
    at: usize,
    shapes: &mut Shapes,
) -> Result<(), Refusal<GdsBad>>
    requires count { length points.now ≤ 8191 }
    requires points { All IsFilePoint points.now }
    ensures shapes { OnOk result (shapes.new ≡ shapes.old ++ shapes_kept element.now.kind element.now points.now) }
    ensures grid { All IsShapeOnGrid shapes.old → OnOk result (All IsShapeOnGrid shapes.new) }
    ensures kept { is_drawn element.now.kind ≡ true
        → OnOk result ((rule : ℕ) → KeepsOf element.now.kind element.now points.now rule) }
    ensures broken { IfFault result (IsRefusedBy (KeepsOf element.now.kind element.now points.now) at) }
    ensures memory { result ≡ Err Wanting → BreaksNone (KeepsOf element.now.kind element.now points.now) }
{
    match element.kind {
        Some(Kind::Boundary) => draw_boundary(alloc, element, points, at, shapes),
        Some(Kind::Path) => draw_path(alloc, element, points, at, shapes),
        _ => Ok(()),
    }
}
