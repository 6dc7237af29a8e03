//! Shapes on wanted pairs.
ghost use Rattle.std.specs.Prelude.{◌≡◌, ◌++◌, ◌^◌, ℕ, All, OnOk, Err};
ghost use Rattle.geo_stream.specs.Refusals.{IfFault};
ghost use Rattle.geo_stream.specs.declared.refusal.Refusal.TheVariants as refusals;
ghost use Rattle.layout_model.specs.Layouts.{IsShapeOnGrid};
ghost use Rattle.oas_fields.specs.Values.{IsPlaceWithin, or_zero};
ghost use Rattle.oas_shapes.specs.Rules.{IsLowest};
ghost use Rattle.oas_shapes.specs.Short.{IsShortIn};
ghost use Rattle.oas_shapes.specs.declared.drawing.Undrawn.TheVariants.{Rule, NoMemory as Wanting};
ghost use Rattle.oas_reader.specs.Meaning.{or_none, trapezoid};
ghost use Rattle.oas_reader.specs.Drawn.{pair_in, brush_in, figure_in, repetition_kept, shapes_in, HasShortList, KeepsDrawnIn, KeepsWantedIn, IsRefusedBy};

use crate::bodies::{Body, Outline};
use crate::placing::{bad_at, point_of, repetition_in};
use crate::refusing::OasBad;
use geo_stream::Refusal;
use layout_model::{Pair, Shapes};
use oas_fields::Fields;
use oas_shapes::{Brush, Figure, Undrawn, draw_figure, draw_path, draw_polygon};
use std::alloc::Global;

/// The rule of records that can't be on wanted pairs.
const PAIR_RULE: u8 = 7;

/// The number, or 0.
#[inline(always)]
pub(crate) fn or_none(number: Option<u64>) -> u64
    ensures { result ≡ or_none number }
{
    match number {
        Some(number) => number,
        None => 0,
    }
}

#[inline(always)]
fn or_zero(length: Option<i128>) -> i128
    ensures { result ≡ or_zero length }
{
    match length {
        Some(length) => length,
        None => 0,
    }
}

/// The pair of the last record.
#[inline(always)]
pub(crate) fn pair_of(fields: &Fields<'_>) -> Pair
    ensures { result ≡ pair_in fields.now }
{
    Pair {
        layer: or_none(fields.layer),
        datatype: or_none(fields.datatype),
    }
}

/// The lengths of the last path.
pub(crate) fn brush_of(fields: &Fields<'_>) -> Brush
    ensures { result ≡ brush_in fields.now }
{
    Brush {
        half_width: or_none(fields.half_width),
        start: or_zero(fields.start),
        end: or_zero(fields.end),
    }
}

fn trapezoid(is_upright: bool, width: u64, height: u64, a: i64, b: i64) -> Figure
    ensures { result ≡ trapezoid is_upright width height a b }
{
    if is_upright {
        return Figure::Vertical {
            width,
            height,
            a,
            b,
        };
    }
    Figure::Horizontal {
        width,
        height,
        a,
        b,
    }
}

// The rectangle or trapezoid of a body, if it is one.
#[inline(always)]
fn figure_of(body: Body, fields: &Fields<'_>) -> Option<Figure>
    ensures { result ≡ figure_in body fields.now }
{
    let width = or_none(fields.width);
    let height = or_none(fields.height);
    match body {
        Body::Rectangle => Some(Figure::Rectangle { width, height }),
        Body::Trapezoid {
            is_upright,
            delta_a,
            delta_b,
        } => Some(trapezoid(is_upright, width, height, delta_a, delta_b)),
        Body::Ctrapezoid => Some(Figure::Ctrapezoid {
            kind: or_none(fields.kind),
            width,
            height,
        }),
        _ => None,
    }
}

// Adds the shapes of a body whose pair is wanted. It isn't a CIRCLE or XGEOMETRY.
#[inline(always)]
fn draw_body(
    alloc: Global,
    fields: &Fields<'_>,
    outline: Outline,
    shapes: &mut Shapes,
) -> Result<(), Undrawn>
    requires near { IsPlaceWithin (2 ^ 40) fields.now.geometry }
    ensures shapes { OnOk result (shapes.new ≡ shapes.old ++ shapes_in outline.body fields.now (repetition_kept outline.repeats fields.now.repetition)) }
    ensures grid { All IsShapeOnGrid shapes.old → OnOk result (All IsShapeOnGrid shapes.new) }
    ensures kept { OnOk result ((rule : ℕ) → KeepsDrawnIn outline.body fields.now (repetition_kept outline.repeats fields.now.repetition) rule) }
    ensures broken { (rule : ℕ) → result ≡ Err (Rule rule)
        → IsLowest (KeepsDrawnIn outline.body fields.now (repetition_kept outline.repeats fields.now.repetition)) rule }
    ensures memory { HasShortList outline.body fields.now → IsShortIn (repetition_kept outline.repeats fields.now.repetition)
        → result ≡ Err Wanting
        → (rule : ℕ) → KeepsDrawnIn outline.body fields.now (repetition_kept outline.repeats fields.now.repetition) rule }
{
    let pair = pair_of(fields);
    let at = point_of(fields.geometry);
    let repetition = repetition_in(fields, outline.repeats);
    if let Some(figure) = figure_of(outline.body, fields) {
        return draw_figure(alloc, pair, at, figure, repetition, shapes);
    }
    match outline.body {
        Body::Polygon => match &fields.polygon_points {
            Some(points) => draw_polygon(alloc, pair, at, points, repetition, shapes),
            None => Ok(()),
        },
        Body::Path => match &fields.path_points {
            Some(points) => {
                let brush = brush_of(fields);
                draw_path(alloc, pair, at, brush, points, repetition, shapes)
            }
            None => Ok(()),
        },
        _ => Ok(()),
    }
}

/// Adds the shapes of the record at this offset, whose pair is wanted. The fields have taken the record. A rule that it
/// breaks is told even where memory is wanting, unless its outline, its points or its repetition's places are more than
/// twelve.
#[inline(always)]
pub(crate) fn draw(
    alloc: Global,
    fields: &Fields<'_>,
    outline: Outline,
    at: usize,
    shapes: &mut Shapes,
) -> Result<(), Refusal<OasBad>>
    requires near { IsPlaceWithin (2 ^ 40) fields.now.geometry }
    ensures shapes { OnOk result (shapes.new ≡ shapes.old ++ shapes_in outline.body fields.now (repetition_kept outline.repeats fields.now.repetition)) }
    ensures grid { All IsShapeOnGrid shapes.old → OnOk result (All IsShapeOnGrid shapes.new) }
    ensures kept { OnOk result ((rule : ℕ) → KeepsWantedIn outline.body fields.now (repetition_kept outline.repeats fields.now.repetition) rule) }
    ensures broken { IfFault result (IsRefusedBy (KeepsWantedIn outline.body fields.now (repetition_kept outline.repeats fields.now.repetition)) at) }
    ensures memory { HasShortList outline.body fields.now → IsShortIn (repetition_kept outline.repeats fields.now.repetition)
        → result ≡ Err refusals.NoMemory
        → (rule : ℕ) → KeepsWantedIn outline.body fields.now (repetition_kept outline.repeats fields.now.repetition) rule }
{
    match outline.body {
        Body::Undrawn => Err(Refusal::Fault(OasBad::Value(at, PAIR_RULE))),
        _ => match draw_body(alloc, fields, outline, shapes) {
            Ok(()) => Ok(()),
            Err(undrawn) => Err(bad_at(undrawn, at)),
        },
    }
}
