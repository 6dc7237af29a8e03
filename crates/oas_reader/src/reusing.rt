//! Point lists and repetitions that records use again.
ghost use Rattle.std.specs.Prelude.{◌≡◌, ◌^◌};
ghost use Rattle.layout_model.specs.Pairs.{AreSorted};
ghost use Rattle.oas_fields.specs.Values.{IsPlaceWithin};

use crate::drawing::pair_of;
use crate::placing::point_of;
use crate::rules::positions_are_near;
use layout_model::{Pair, is_among};
use oas_fields::Fields;
use oas_record::{OasRecord, Rep, ShapeKind};
use std::alloc::Global;

/// Whose point list a record uses again.
#[derive(Clone, Copy)]
pub(crate) enum Again {
    Polygon,
    Path,
    Nothing,
}

/// What the record is, if it is a polygon or a path with the point list of the last one.
pub(crate) fn points_again(current: &OasRecord<'_>) -> Again {
    match current {
        OasRecord::Shape {
            kind: ShapeKind::Polygon { points: None },
            ..
        } => Again::Polygon,
        OasRecord::Shape {
            kind: ShapeKind::Path { points: None, .. },
            ..
        } => Again::Path,
        _ => Again::Nothing,
    }
}

// Makes the outline of the last polygon's point list.
fn make_outline(alloc: Global, fields: &mut Fields<'_>)
    requires { IsPlaceWithin (2 ^ 40) fields.old.geometry }
    ensures { fields.new ≡ fields.old }
{
    let at = point_of(fields.geometry);
    if let Some(points) = &mut fields.polygon_points {
        points.make_outline(alloc, at);
    }
}

// Makes the segments of the last path's point list.
fn make_segments(alloc: Global, fields: &mut Fields<'_>)
    requires { IsPlaceWithin (2 ^ 40) fields.old.geometry }
    ensures { fields.new ≡ fields.old }
{
    let at = point_of(fields.geometry);
    if let Some(points) = &mut fields.path_points {
        points.make_segments(alloc, at);
    }
}

/// Makes what the last point list means where a wanted polygon or path uses it again, so that all records after share
/// it. A record that keeps no rule there is refused next, so a list that can't be made isn't tried over and over.
pub(crate) fn make_points(alloc: Global, sorted: &[Pair], fields: &mut Fields<'_>, again: Again)
    requires { AreSorted sorted.now }
    ensures { fields.new ≡ fields.old }
{
    if matches!(again, Again::Nothing) {
        return;
    }
    if !positions_are_near(fields) {
        return;
    }
    if !is_among(sorted, pair_of(fields)) {
        return;
    }
    match again {
        Again::Polygon => make_outline(alloc, fields),
        Again::Path => make_segments(alloc, fields),
        Again::Nothing => {}
    }
}

/// What uses the last repetition again.
#[derive(Clone, Copy)]
pub(crate) enum Repeated {
    Placement,
    Shape,
    Nothing,
}

/// What the record is, if it is a placement or a shape that is repeated as the last record before it that was.
pub(crate) fn repeated_again(current: &OasRecord<'_>) -> Repeated {
    match current {
        OasRecord::Placement {
            repetition: Some(Rep::Same),
            ..
        } => Repeated::Placement,
        OasRecord::Shape { head, .. } => {
            if matches!(&head.repetition, Some(Rep::Same)) {
                return Repeated::Shape;
            }
            Repeated::Nothing
        }
        _ => Repeated::Nothing,
    }
}

// Whether the places are those of a placement or of a shape on a wanted pair.
fn are_wanted(sorted: &[Pair], fields: &Fields<'_>, again: Repeated) -> bool
    requires { AreSorted sorted.now }
{
    match again {
        Repeated::Placement => true,
        Repeated::Shape => is_among(sorted, pair_of(fields)),
        Repeated::Nothing => false,
    }
}

/// Makes the places of the last repetition where a placement or a wanted shape uses it again, so that all records after
/// share them.
pub(crate) fn make_places(alloc: Global, sorted: &[Pair], fields: &mut Fields<'_>, again: Repeated)
    requires { AreSorted sorted.now }
    ensures { fields.new ≡ fields.old }
{
    if !are_wanted(sorted, fields, again) {
        return;
    }
    if let Some(repetition) = &mut fields.repetition {
        repetition.make_places(alloc);
    }
}
