//! The values of a record: whether they are there and keep the rules, and what they draw or place.
ghost use Rattle.std.specs.Prelude.{◌≡◌, ◌^◌, ◌++◌, ℕ, true, false, List, [], ◌∷◌, None as Nothing, IsSome, OnOk, IfOk, IfErr, Err};
ghost use Rattle.geo_stream.specs.Refusals.{IfFault};
ghost use Rattle.geo_stream.specs.declared.refusal.Refusal.TheVariants as refusals;
ghost use Rattle.layout_model.specs.declared.pair.Pair.{Pair as APair};
ghost use Rattle.oas_record.specs.declared.fields.Called.{Called as ACalled};
ghost use Rattle.oas_record.specs.declared.records.OasRecord.{OasRecord as ARecord};
ghost use Rattle.oas_shapes.specs.Short.{IsShortIn};
ghost use Rattle.oas_fields.specs.Values.{IsPlaceWithin, ArePlacesWithin, begins_cell};
ghost use Rattle.oas_reader.specs.Drawn.{shapes_in, HasShortList, IsRefusedBy};
ghost use Rattle.oas_reader.specs.Geometry.{wanting_in, rep_in, shapes_if, placings_in, KeepsShapes, KeepsGeometry, IsBadLook};
ghost use Rattle.oas_reader.specs.Items.{Item, records_in};
ghost use Rattle.oas_reader.specs.Kept.{undefined_in, KeepsVersionBy, KeepsSchemeBy};
ghost use Rattle.oas_reader.specs.Naming.{AreCalledWithin};
ghost use Rattle.oas_reader.specs.Placed.{KeepsPlaced, IsTurning, placed_by};
ghost use Rattle.oas_reader.specs.Reading.{item};
ghost use Rattle.oas_reader.specs.Readers.{placings_of, AreDraftsOf, AreDraftsWithin};
ghost use Rattle.oas_reader.specs.Taking.{IsBodyWithin, IsTaken, wanting_of, AreValuesKept, IsBadValue};
ghost use Rattle.layout_model.specs.Pairs.{AreSorted};
ghost use Rattle.oas_reader.specs.declared.bodies.Body.TheVariants as bodies;

use crate::bodies::{Body, Outline, Turning};
use crate::cells::Drafts;
use crate::drawing::{draw, pair_of};
use crate::placing::{DIMENSION_RULE, placing_of};
use crate::refusing::OasBad;
use crate::rules::{POSITION_RULE, broken_by_file, positions_are_near};
use crate::undefined::{first_undefined, has_pair};
use geo_stream::Refusal;
use layout_model::{Pair, is_among};
use oas_fields::Fields;
use oas_record::Called;
use std::alloc::Global;

// Looks at the values of a record, its shapes, its placement and its own name aside, and says of one with a pair
// whether it is wanted.
#[inline(always)]
fn look_at_values(
    bytes: &[u8],
    sorted: &[Pair],
    fields: &Fields<'_>,
    outline: Outline,
    at: usize,
) -> Result<Option<bool>, OasBad>
    requires body { IsBodyWithin bytes.now outline.body }
    requires sorted { AreSorted sorted.now }
    ensures near { OnOk result (ArePlacesWithin (2 ^ 40) fields.now) }
    ensures defined { OnOk result (undefined_in outline.body outline.repeats fields.now ≡ Nothing) }
    ensures version { OnOk result (KeepsVersionBy bytes.now outline.body) }
    ensures scheme { OnOk result (KeepsSchemeBy outline.body) }
    ensures wanting { IfOk result (λ wanting. wanting ≡ wanting_in sorted.now outline.body fields.now) }
    ensures bad { IfErr result (IsBadLook bytes.now outline fields.now at) }
{
    if let Some(variable) = first_undefined(outline.body, outline.repeats, fields) {
        return Err(OasBad::Undefined(at, variable));
    }
    if !positions_are_near(fields) {
        return Err(OasBad::Value(at, POSITION_RULE));
    }
    if let Some(rule) = broken_by_file(bytes, outline.body) {
        return Err(OasBad::Value(at, rule));
    }
    if has_pair(outline.body) {
        return Ok(Some(is_among(sorted, pair_of(fields))));
    }
    Ok(None)
}

// Adds the placement at this offset to the open cell.
fn take_placing(
    alloc: Global,
    bytes: &[u8],
    fields: &Fields<'_>,
    outline: Outline,
    called: Option<Called>,
    flips: bool,
    turning: Turning,
    at: usize,
    drafts: &mut Drafts,
) -> Result<(), Refusal<OasBad>>
    requires near { IsPlaceWithin (2 ^ 40) fields.now.placement }
    requires turning { IsTurning turning }
    requires called { AreCalledWithin bytes.now called }
    requires cell { IsSome fields.now.cell }
    requires within { AreCalledWithin bytes.now fields.now.cell }
    ensures placings { OnOk result (placings_of drafts.new.placings.items
        ≡ placings_of drafts.old.placings.items ++ placed_by fields.now flips turning (rep_in outline fields.now) ∷ []) }
    ensures shapes { OnOk result (drafts.new.shapes ≡ drafts.old.shapes) }
    ensures begun { OnOk result (drafts.new.begun ≡ drafts.old.begun) }
    ensures whole { OnOk result (drafts.new.whole ≡ drafts.old.whole) }
    ensures within { AreDraftsWithin bytes.now drafts.old → OnOk result (AreDraftsWithin bytes.now drafts.new) }
    ensures kept { OnOk result ((rule : ℕ) → KeepsPlaced bytes.now called turning (rep_in outline fields.now) rule) }
    ensures broken { IfFault result (IsRefusedBy (KeepsPlaced bytes.now called turning (rep_in outline fields.now)) at) }
{
    let placing = match placing_of(alloc, bytes, fields, outline, called, flips, turning, at) {
        Ok(placing) => placing,
        Err(bad) => return Err(bad),
    };
    match drafts.place(placing) {
        Ok(()) => Ok(()),
        Err(_) => Err(Refusal::NoMemory),
    }
}

// Adds the shapes of the record at this offset to the open cell, where its pair is wanted.
#[inline(always)]
fn take_shapes(
    alloc: Global,
    fields: &Fields<'_>,
    outline: Outline,
    wanted: Option<bool>,
    at: usize,
    drafts: &mut Drafts,
) -> Result<(), Refusal<OasBad>>
    requires near { IsPlaceWithin (2 ^ 40) fields.now.geometry }
    ensures shapes { OnOk result (drafts.new.shapes
        ≡ drafts.old.shapes ++ shapes_if wanted (shapes_in outline.body fields.now (rep_in outline fields.now))) }
    ensures placings { OnOk result (drafts.new.placings ≡ drafts.old.placings) }
    ensures begun { OnOk result (drafts.new.begun ≡ drafts.old.begun) }
    ensures whole { OnOk result (drafts.new.whole ≡ drafts.old.whole) }
    ensures still { wanted ≡ Nothing → OnOk result (drafts.new ≡ drafts.old) }
    ensures within { (bytes : List ℕ) → AreDraftsWithin bytes drafts.old → OnOk result (AreDraftsWithin bytes drafts.new) }
    ensures kept { OnOk result ((rule : ℕ) → KeepsShapes outline.body outline.has_dimensions wanted fields.now (rep_in outline fields.now) rule) }
    ensures broken { IfFault result (IsRefusedBy (KeepsShapes outline.body outline.has_dimensions wanted fields.now (rep_in outline fields.now)) at) }
    ensures memory { HasShortList outline.body fields.now → IsShortIn (rep_in outline fields.now) → result ≡ Err refusals.NoMemory
        → (rule : ℕ) → KeepsShapes outline.body outline.has_dimensions wanted fields.now (rep_in outline fields.now) rule }
{
    match wanted {
        Some(true) => match draw(alloc, fields, outline, at, &mut drafts.shapes) {
            Ok(()) => Ok(()),
            Err(bad) => Err(bad),
        },
        _ => {
            if outline.has_dimensions {
                return Ok(());
            }
            Err(Refusal::Fault(OasBad::Value(at, DIMENSION_RULE)))
        }
    }
}

// Adds the placement or the shapes of a record to the open cell. `wanted` says of a record with a pair whether it is
// wanted.
#[inline(always)]
fn take_geometry(
    alloc: Global,
    bytes: &[u8],
    fields: &Fields<'_>,
    outline: Outline,
    wanted: Option<bool>,
    at: usize,
    drafts: &mut Drafts,
) -> Result<(), Refusal<OasBad>>
    requires near { ArePlacesWithin (2 ^ 40) fields.now }
    requires body { IsBodyWithin bytes.now outline.body }
    requires defined { undefined_in outline.body outline.repeats fields.now ≡ Nothing }
    requires cell { AreCalledWithin bytes.now fields.now.cell }
    ensures placings { OnOk result (placings_of drafts.new.placings.items
        ≡ placings_of drafts.old.placings.items ++ placings_in outline.body fields.now (rep_in outline fields.now)) }
    ensures shapes { OnOk result (drafts.new.shapes
        ≡ drafts.old.shapes ++ shapes_if wanted (shapes_in outline.body fields.now (rep_in outline fields.now))) }
    ensures begun { OnOk result (drafts.new.begun ≡ drafts.old.begun) }
    ensures whole { OnOk result (drafts.new.whole ≡ drafts.old.whole) }
    ensures still { (called : ACalled) → outline.body ≡ bodies.Cell called → wanted ≡ Nothing → OnOk result (drafts.new ≡ drafts.old) }
    ensures within { AreDraftsWithin bytes.now drafts.old → OnOk result (AreDraftsWithin bytes.now drafts.new) }
    ensures kept { OnOk result ((rule : ℕ) → KeepsGeometry bytes.now outline.body outline.has_dimensions wanted fields.now (rep_in outline fields.now) rule) }
    ensures broken { IfFault result (IsRefusedBy (KeepsGeometry bytes.now outline.body outline.has_dimensions wanted fields.now (rep_in outline fields.now)) at) }
{
    match outline.body {
        Body::Placement {
            called,
            flips,
            turning,
        } => take_placing(
            alloc, bytes, fields, outline, called, flips, turning, at, drafts,
        ),
        _ => take_shapes(alloc, fields, outline, wanted, at, drafts),
    }
}

/// Looks at the values of the record at this offset, which the fields have taken, its own name aside, adds what it
/// draws or places to the open cell, and says of one with a pair whether it is wanted.
#[inline(always)]
pub(crate) fn take_values(
    alloc: Global,
    bytes: &[u8],
    sorted: &[Pair],
    fields: &Fields<'_>,
    outline: Outline,
    at: usize,
    drafts: &mut Drafts,
) -> Result<Option<bool>, Refusal<OasBad>>
    requires body { IsBodyWithin bytes.now outline.body }
    requires cell { AreCalledWithin bytes.now fields.now.cell }
    requires sorted { AreSorted sorted.now }
    ensures near { OnOk result (ArePlacesWithin (2 ^ 40) fields.now) }
    ensures kept { (wanted : List APair) (past : List ARecord) (r : ARecord) → IsTaken wanted sorted.now past r outline fields.now
        → OnOk result (AreValuesKept bytes.now wanted past r) }
    ensures wanting { (wanted : List APair) (past : List ARecord) (r : ARecord) → IsTaken wanted sorted.now past r outline fields.now
        → IfOk result (λ wanting. wanting ≡ wanting_of wanted past r) }
    ensures drafts { (wanted : List APair) (past : List Item) (r : ARecord) → IsTaken wanted sorted.now (records_in past) r outline fields.now
        → begins_cell r ≡ false → AreDraftsOf wanted past drafts.old → OnOk result (AreDraftsOf wanted (item at r ∷ past) drafts.new) }
    ensures cell { (wanted : List APair) (past : List ARecord) (r : ARecord) → IsTaken wanted sorted.now past r outline fields.now
        → begins_cell r ≡ true → OnOk result (drafts.new ≡ drafts.old) }
    ensures within { AreDraftsWithin bytes.now drafts.old → OnOk result (AreDraftsWithin bytes.now drafts.new) }
    ensures bad { (wanted : List APair) (past : List ARecord) (r : ARecord) → IsTaken wanted sorted.now past r outline fields.now
        → IfFault result (IsBadValue bytes.now wanted past at r) }
{
    let wanted = match look_at_values(bytes, sorted, fields, outline, at) {
        Ok(wanted) => wanted,
        Err(bad) => return Err(Refusal::Fault(bad)),
    };
    match take_geometry(alloc, bytes, fields, outline, wanted, at, drafts) {
        Ok(()) => Ok(wanted),
        Err(bad) => Err(bad),
    }
}
