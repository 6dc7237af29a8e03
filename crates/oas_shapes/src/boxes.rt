//! Rectangles without a repetition.
ghost use Rattle.std.specs.Prelude.{◌≡◌, ◌++◌, ℕ, pos, ◌+ℤ◌, true, false, [], ◌∷◌, All, OnOk, IfSome, IfNone, Err, None as Nothing};
ghost use Rattle.layout_model.specs.Images.{moved as place_after};
ghost use Rattle.half_grid.specs.Outlines.{IsClosed, HasGridEdges};
ghost use Rattle.layout_model.specs.Kept.{ring_between, shape_with};
ghost use Rattle.layout_model.specs.Layouts.{IsShapeOnGrid};
ghost use Rattle.layout_model.specs.Places.{origin};
ghost use Rattle.oas_shapes.specs.Figures.{IsSize};
ghost use Rattle.oas_shapes.specs.Outlines.{figure_outline, outline_shape};
ghost use Rattle.oas_shapes.specs.Plane.{point, IsLength, IsNearInSteps};
ghost use Rattle.oas_shapes.specs.Repetitions.{offsets_in};
ghost use Rattle.oas_shapes.specs.Rules.{KeepsFigure, IsLowest};
ghost use Rattle.oas_shapes.specs.declared.drawing.Undrawn.TheVariants.{Rule, NoMemory as Wanting};
ghost use Rattle.oas_shapes.specs.declared.figures.Figure.TheVariants.{Rectangle};

use crate::corners::is_size;
use crate::drawing::Undrawn;
use crate::wide::doubled;
use geo_stream::NoMemory;
use half_grid::Point;
use layout_model::{KeptShape, Pair, Shapes};
use std::alloc::Global;

// How far from 0 a coordinate is at most, in grid steps.
const FARTHEST: i64 = 1 << 40;

// A side of a rectangle, from a coordinate on.
#[derive(Clone, Copy)]
struct Side {
    from: i64,
    length: u64,
}

impl Side {
    // Where it ends, if that is near 0.
    #[inline(always)]
    fn end(self) -> Option<i64>
        requires from { IsLength self.from }
        requires length { IsSize self.length }
        ensures some { IfSome result (λ end. (end ≡ pos self.length +ℤ self.from) × IsLength end) }
        ensures none { IfNone result (¬ IsLength (pos self.length +ℤ self.from)) }
    {
        let end = self.from + self.length as i64;
        if end > FARTHEST {
            return None;
        }
        Some(end)
    }
}

// The upper right corner of a rectangle at this position, if it is near 0.
#[inline(always)]
fn opposite(at: Point, width: u64, height: u64) -> Option<Point>
    requires at { IsNearInSteps at }
    requires width { IsSize width }
    requires height { IsSize height }
    ensures some { IfSome result (λ p. (p ≡ place_after at (point (pos width) (pos height))) × IsNearInSteps p) }
    ensures none { IfNone result (¬ IsNearInSteps (place_after at (point (pos width) (pos height)))) }
{
    let across = Side {
        from: at.x,
        length: width,
    };
    let upward = Side {
        from: at.y,
        length: height,
    };
    match across.end() {
        Some(x) => match upward.end() {
            Some(y) => Some(Point { x, y }),
            None => None,
        },
        None => None,
    }
}

// Puts the rectangle with these corners in half units last.
#[inline(always)]
fn push_rectangle(
    alloc: Global,
    pair: Pair,
    low: Point,
    high: Point,
    shapes: &mut Shapes,
) -> Result<(), NoMemory>
    ensures shapes { OnOk result (shapes.new ≡ shapes.old ++ shape_with pair (ring_between low high true) (origin ∷ []) false ∷ []) }
    ensures closed { IsClosed (ring_between low high true) }
    ensures edges { HasGridEdges (ring_between low high true) }
{
    let kept = KeptShape::rectangle(alloc, pair, low, high)?;
    shapes.push(kept)
}

/// Adds the shape of a RECTANGLE at this position that isn't repeated, as `draw_figure` does. It makes no outline: a
/// rectangle is near 0 where two of its corners are.
#[inline(always)]
pub fn draw_rectangle(
    alloc: Global,
    pair: Pair,
    at: Point,
    width: u64,
    height: u64,
    shapes: &mut Shapes,
) -> Result<(), Undrawn>
    requires at { IsNearInSteps at }
    ensures shapes { OnOk result (shapes.new ≡ shapes.old ++ outline_shape pair (figure_outline at (Rectangle width height)) (offsets_in Nothing) ∷ []) }
    ensures grid { All IsShapeOnGrid shapes.old → OnOk result (All IsShapeOnGrid shapes.new) }
    ensures kept { OnOk result ((rule : ℕ) → KeepsFigure at (Rectangle width height) Nothing rule) }
    ensures broken { (rule : ℕ) → result ≡ Err (Rule rule) → IsLowest (KeepsFigure at (Rectangle width height) Nothing) rule }
    ensures memory { result ≡ Err Wanting → (rule : ℕ) → KeepsFigure at (Rectangle width height) Nothing rule }
{
    if !is_size(width) {
        return Err(Undrawn::Rule(1));
    }
    if !is_size(height) {
        return Err(Undrawn::Rule(1));
    }
    let Some(high) = opposite(at, width, height) else {
        return Err(Undrawn::Rule(1));
    };
    match push_rectangle(alloc, pair, doubled(at), doubled(high), shapes) {
        Ok(()) => Ok(()),
        Err(_) => Err(Undrawn::NoMemory),
    }
}
