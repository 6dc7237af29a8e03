//! Rectangles that write no repetition, the commonest records.
ghost use Rattle.std.specs.Prelude.{◌≡◌, ◌^◌, ◌++◌, ℕ, true, false, List, ◌∷◌, None as Nothing, Some as Just, All, OnOk, IfOk, IfErr};
ghost use Rattle.geo_stream.specs.Refusals.{IfFault};
ghost use Rattle.layout_model.specs.Layouts.{IsShapeOnGrid};
ghost use Rattle.layout_model.specs.Pairs.{AreSorted};
ghost use Rattle.layout_model.specs.declared.pair.Pair.{Pair as APair};
ghost use Rattle.oas_fields.specs.Values.{IsPlaceWithin, ArePlacesWithin, begins_cell};
ghost use Rattle.oas_record.specs.declared.records.OasRecord.{OasRecord as ARecord};
ghost use Rattle.oas_reader.specs.Drawn.{shapes_in, KeepsDrawnIn, IsRefusedBy};
ghost use Rattle.oas_reader.specs.Geometry.{wanting_in, shapes_if, KeepsShapes, IsBadLook};
ghost use Rattle.oas_reader.specs.Items.{Item, records_in};
ghost use Rattle.oas_reader.specs.Kept.{undefined_in};
ghost use Rattle.oas_reader.specs.Plain.{plain};
ghost use Rattle.oas_reader.specs.Reading.{item};
ghost use Rattle.oas_reader.specs.Readers.{AreDraftsOf, AreDraftsWithin};
ghost use Rattle.oas_reader.specs.Taking.{IsTaken, wanting_of, AreValuesKept, IsBadValue};
ghost use Rattle.oas_reader.specs.declared.bodies.Body.TheVariants as bodies;

use crate::cells::Drafts;
use crate::drawing::{or_none, pair_of};
use crate::placing::{bad_at, point_of};
use crate::refusing::OasBad;
use crate::rules::{POSITION_RULE, is_near};
use crate::undefined::{undefined_box, undefined_pair};
use geo_stream::Refusal;
use layout_model::{Pair, Shapes, is_among};
use oas_fields::{Fields, Variable};
use oas_shapes::draw_rectangle;
use std::alloc::Global;

// The first variable that a rectangle needs and that has no value.
#[inline(always)]
fn first_undefined(fields: &Fields<'_>) -> Option<Variable>
    ensures { result ≡ undefined_in bodies.Rectangle false fields.now }
{
    if let Some(variable) = undefined_pair(fields) {
        return Some(variable);
    }
    undefined_box(fields)
}

// Looks at the values of a rectangle, its shape aside, and says whether its pair is wanted. The positions of placements
// and texts are near.
#[inline(always)]
fn look_at_rectangle(sorted: &[Pair], fields: &Fields<'_>, at: usize) -> Result<bool, OasBad>
    requires sorted { AreSorted sorted.now }
    requires placement { IsPlaceWithin (2 ^ 40) fields.now.placement }
    requires text { IsPlaceWithin (2 ^ 40) fields.now.text }
    ensures near { OnOk result (ArePlacesWithin (2 ^ 40) fields.now) }
    ensures defined { OnOk result (undefined_in bodies.Rectangle false fields.now ≡ Nothing) }
    ensures wanting { IfOk result (λ is_wanted. Just is_wanted ≡ wanting_in sorted.now bodies.Rectangle fields.now) }
    ensures bad { (bytes : List ℕ) → IfErr result (IsBadLook bytes plain fields.now at) }
{
    if let Some(variable) = first_undefined(fields) {
        return Err(OasBad::Undefined(at, variable));
    }
    if !is_near(fields.geometry) {
        return Err(OasBad::Value(at, POSITION_RULE));
    }
    Ok(is_among(sorted, pair_of(fields)))
}

// Adds the shape of a rectangle whose pair is wanted.
#[inline(always)]
fn draw_plain(
    alloc: Global,
    fields: &Fields<'_>,
    at: usize,
    shapes: &mut Shapes,
) -> Result<(), Refusal<OasBad>>
    requires near { IsPlaceWithin (2 ^ 40) fields.now.geometry }
    ensures shapes { OnOk result (shapes.new ≡ shapes.old ++ shapes_in bodies.Rectangle fields.now Nothing) }
    ensures grid { All IsShapeOnGrid shapes.old → OnOk result (All IsShapeOnGrid shapes.new) }
    ensures kept { OnOk result ((rule : ℕ) → KeepsDrawnIn bodies.Rectangle fields.now Nothing rule) }
    ensures broken { IfFault result (IsRefusedBy (KeepsDrawnIn bodies.Rectangle fields.now Nothing) at) }
{
    let pair = pair_of(fields);
    let place = point_of(fields.geometry);
    let width = or_none(fields.width);
    let height = or_none(fields.height);
    match draw_rectangle(alloc, pair, place, width, height, shapes) {
        Ok(()) => Ok(()),
        Err(undrawn) => Err(bad_at(undrawn, at)),
    }
}

// Adds the shape of a rectangle to the open cell, where its pair is wanted.
#[inline(always)]
fn add_rectangle(
    alloc: Global,
    fields: &Fields<'_>,
    is_wanted: bool,
    at: usize,
    drafts: &mut Drafts,
) -> Result<(), Refusal<OasBad>>
    requires near { IsPlaceWithin (2 ^ 40) fields.now.geometry }
    ensures shapes { OnOk result (drafts.new.shapes
        ≡ drafts.old.shapes ++ shapes_if (Just is_wanted) (shapes_in bodies.Rectangle fields.now Nothing)) }
    ensures placings { OnOk result (drafts.new.placings ≡ drafts.old.placings) }
    ensures begun { OnOk result (drafts.new.begun ≡ drafts.old.begun) }
    ensures whole { OnOk result (drafts.new.whole ≡ drafts.old.whole) }
    ensures within { (bytes : List ℕ) → AreDraftsWithin bytes drafts.old → OnOk result (AreDraftsWithin bytes drafts.new) }
    ensures kept { OnOk result ((rule : ℕ) → KeepsShapes bodies.Rectangle true (Just is_wanted) fields.now Nothing rule) }
    ensures broken { IfFault result (IsRefusedBy (KeepsShapes bodies.Rectangle true (Just is_wanted) fields.now Nothing) at) }
{
    if !is_wanted {
        return Ok(());
    }
    match draw_plain(alloc, fields, at, &mut drafts.shapes) {
        Ok(()) => Ok(()),
        Err(bad) => Err(bad),
    }
}

/// Looks at the values of the rectangle at this offset, which the fields have taken, adds it to the open cell where its
/// pair is wanted, and says whether it is. It does what `take_values` does of such a record. The positions of
/// placements and texts were near before it.
#[inline(always)]
pub(crate) fn take_plain(
    alloc: Global,
    sorted: &[Pair],
    fields: &Fields<'_>,
    at: usize,
    drafts: &mut Drafts,
) -> Result<bool, Refusal<OasBad>>
    requires sorted { AreSorted sorted.now }
    requires placement { IsPlaceWithin (2 ^ 40) fields.now.placement }
    requires text { IsPlaceWithin (2 ^ 40) fields.now.text }
    ensures near { OnOk result (ArePlacesWithin (2 ^ 40) fields.now) }
    ensures kept { (bytes : List ℕ) (wanted : List APair) (past : List ARecord) (r : ARecord) → IsTaken wanted sorted.now past r plain fields.now
        → OnOk result (AreValuesKept bytes wanted past r) }
    ensures wanting { (wanted : List APair) (past : List ARecord) (r : ARecord) → IsTaken wanted sorted.now past r plain fields.now
        → IfOk result (λ is_wanted. Just is_wanted ≡ wanting_of wanted past r) }
    ensures drafts { (wanted : List APair) (past : List Item) (r : ARecord) → IsTaken wanted sorted.now (records_in past) r plain fields.now
        → begins_cell r ≡ false → AreDraftsOf wanted past drafts.old → OnOk result (AreDraftsOf wanted (item at r ∷ past) drafts.new) }
    ensures within { (bytes : List ℕ) → AreDraftsWithin bytes drafts.old → OnOk result (AreDraftsWithin bytes drafts.new) }
    ensures bad { (bytes : List ℕ) (wanted : List APair) (past : List ARecord) (r : ARecord) → IsTaken wanted sorted.now past r plain fields.now
        → IfFault result (IsBadValue bytes wanted past at r) }
{
    let is_wanted = match look_at_rectangle(sorted, fields, at) {
        Ok(is_wanted) => is_wanted,
        Err(bad) => return Err(Refusal::Fault(bad)),
    };
    match add_rectangle(alloc, fields, is_wanted, at, drafts) {
        Ok(()) => Ok(is_wanted),
        Err(bad) => Err(bad),
    }
}
