//! Placements.
ghost use Rattle.std.specs.Prelude.{◌≡◌, ◌^◌, ◌≤◌, ◌<◌, ℕ, IfSome, IfNone, IfOk, IfErr, IsSome, Err, option_copied};
ghost use Rattle.geo_stream.specs.Refusals.{IfFault};
ghost use Rattle.layout_model.specs.Images.{IsOrient};
ghost use Rattle.layout_model.specs.Layouts.{IsWithin, IsMove, AreOffsets};
ghost use Rattle.oas_fields.specs.Values.{IsPlaceWithin};
ghost use Rattle.oas_shapes.specs.Plane.{doubled as the_doubled};
ghost use Rattle.oas_shapes.specs.Repetitions.{offsets_in as the_offsets_in};
ghost use Rattle.oas_shapes.specs.Rules.{IsLowest};
ghost use Rattle.oas_shapes.specs.declared.drawing.Undrawn.TheVariants.{Rule};
ghost use Rattle.oas_reader.specs.Drawn.{repetition_kept, bad_at, is_first, IsRefusedBy};
ghost use Rattle.oas_reader.specs.Naming.{AreCalledWithin};
ghost use Rattle.oas_reader.specs.Placed.{KeepsPlaced, KeepsOffsetsIn, KeepsTurned, IsBadTurning, IsTurning, magnification_in, angle_in, orient_in, placed_by};
ghost use Rattle.oas_reader.specs.Readers.{placing_of as the_placing_of, IsPlacingOnGrid};
ghost use Rattle.oas_reader.specs.Meaning.{point_at};
ghost use Rattle.oas_reader.specs.Reals.{IsOasisFactor, IsOasisAngle, factor_of as the_factor_of, turns_of as the_turns_of};

use crate::bodies::{Outline, Turning};
use crate::naming::look_at_called;
use crate::refusing::OasBad;
use geo_stream::Refusal;
use half_grid::Point;
use layout_model::{Offsets, Orient, factor_in, turns_in};
use oas_fields::{Fields, Place};
use oas_lex::{Real, real_whole};
use oas_record::Called;
use oas_shapes::{Repetition, Undrawn, offsets_of};
use std::alloc::Global;

/// The rules of magnifications, of angles and of dimensions.
const MAGNIFICATION_RULE: u8 = 4;

const ANGLE_RULE: u8 = 5;

pub(crate) const DIMENSION_RULE: u8 = 11;

const ORIGIN: Point = Point { x: 0, y: 0 };

/// A placement whose cell may be called by a number yet.
#[derive(Drop)]
pub(crate) struct Placing {
    pub(crate) target: Called,
    pub(crate) orient: Orient,
    pub(crate) at: Point,
    pub(crate) offsets: Offsets,
}

// A magnification from 1 to 16.
fn factor_of(magnification: Option<Real>) -> Option<u8>
    ensures some { IfSome result (λ factor. IsOasisFactor magnification × (factor ≡ the_factor_of magnification)) }
    ensures bounds { IfSome result (λ factor. (1 ≤ factor) × (factor ≤ 16)) }
    ensures none { IfNone result (IsOasisFactor magnification → ⊥) }
{
    let Some(real) = magnification else {
        return Some(1);
    };
    match real_whole(real) {
        Some(n) => factor_in(n),
        None => None,
    }
}

// The quarter turns of an angle that is a multiple of 90 degrees from -360 to 360.
fn turns_of(angle: Option<Real>) -> Option<u8>
    ensures some { IfSome result (λ turns. IsOasisAngle angle × (turns ≡ the_turns_of angle)) }
    ensures few { IfSome result (λ turns. turns < 4) }
    ensures none { IfNone result (IsOasisAngle angle → ⊥) }
{
    let Some(real) = angle else {
        return Some(0);
    };
    match real_whole(real) {
        Some(degrees) => turns_in(degrees),
        None => None,
    }
}

// The orientation of a placement.
fn orient_of(flips: bool, turning: Turning, at: usize) -> Result<Orient, OasBad>
    requires { IsTurning turning }
    ensures value { IfOk result (λ orient. orient ≡ orient_in flips turning) }
    ensures grid { IfOk result IsOrient }
    ensures kept { IfOk result (λ _. IsOasisFactor (magnification_in turning) × IsOasisAngle (angle_in turning)) }
    ensures broken { IfErr result (IsBadTurning turning at) }
{
    match turning {
        Turning::Quarters(turns) => Ok(Orient {
            flip: flips,
            turns,
            mag: 1,
        }),
        Turning::Reals {
            magnification,
            angle,
        } => {
            let Some(mag) = factor_of(magnification) else {
                return Err(OasBad::Value(at, MAGNIFICATION_RULE));
            };
            let Some(turns) = turns_of(angle) else {
                return Err(OasBad::Value(at, ANGLE_RULE));
            };
            Ok(Orient {
                flip: flips,
                turns,
                mag,
            })
        }
    }
}

// The orientation of a placement that calls its cell so.
fn named_orient(
    alloc: Global,
    bytes: &[u8],
    called: Option<Called>,
    flips: bool,
    turning: Turning,
    at: usize,
) -> Result<Orient, Refusal<OasBad>>
    requires turning { IsTurning turning }
    requires called { AreCalledWithin bytes.now called }
    ensures value { IfOk result (λ orient. orient ≡ orient_in flips turning) }
    ensures grid { IfOk result IsOrient }
    ensures kept { IfOk result (λ _. (rule : ℕ) → KeepsTurned bytes.now called turning rule) }
    ensures broken { IfFault result (IsRefusedBy (KeepsTurned bytes.now called turning) at) }
{
    if let Err(bad) = look_at_called(alloc, bytes, called, at) {
        return Err(bad);
    }
    match orient_of(flips, turning, at) {
        Ok(orient) => Ok(orient),
        Err(bad) => Err(Refusal::Fault(bad)),
    }
}

/// A position as a point, in grid steps. It is near.
#[inline(always)]
pub(crate) fn point_of(place: Place) -> Point
    requires { IsPlaceWithin (2 ^ 40) place }
    ensures value { result ≡ point_at place }
    ensures near { IsWithin (2 ^ 40) result }
{
    Point {
        x: place.x as i64,
        y: place.y as i64,
    }
}

// From grid steps to half units.
fn doubled(point: Point) -> Point
    requires { IsWithin (2 ^ 40) point }
    ensures value { result ≡ the_doubled point }
    ensures grid { IsMove result }
{
    Point {
        x: 2 * point.x,
        y: 2 * point.y,
    }
}

/// The repetition of a record, if it has one.
#[inline(always)]
pub(crate) fn repetition_in<'r, 'f>(
    fields: &'r Fields<'f>,
    repeats: bool,
) -> Option<&'r Repetition<'f>>
    ensures { option_copied result ≡ repetition_kept repeats fields.now.repetition }
{
    if repeats {
        return fields.repetition.as_ref();
    }
    None
}

// The offsets of a placement.
fn offsets_in(alloc: Global, repetition: Option<&Repetition<'_>>) -> Result<Offsets, Undrawn>
    ensures offsets { IfOk result (λ offsets. offsets ≡ the_offsets_in (option_copied repetition.entry)) }
    ensures grid { IfOk result AreOffsets }
    ensures kept { IfOk result (λ _. (rule : ℕ) → KeepsOffsetsIn (option_copied repetition.entry) rule) }
    ensures broken { (rule : ℕ) → result ≡ Err (Rule rule) → IsLowest (KeepsOffsetsIn (option_copied repetition.entry)) rule }
{
    match repetition {
        Some(repetition) => match offsets_of(alloc, repetition) {
            Ok(offsets) => Ok(offsets),
            Err(undrawn) => Err(undrawn),
        },
        None => match Offsets::list(alloc, &[ORIGIN]) {
            Ok(offsets) => Ok(offsets),
            Err(_) => Err(Undrawn::NoMemory),
        },
    }
}

/// The refusal at this offset of what can't be drawn or placed.
pub(crate) fn bad_at(undrawn: Undrawn, at: usize) -> Refusal<OasBad>
    ensures { result ≡ bad_at undrawn at }
{
    match undrawn {
        Undrawn::Rule(rule) => Refusal::Fault(OasBad::Value(at, rule)),
        Undrawn::NoMemory => Refusal::NoMemory,
    }
}

// The refusal of offsets that comes before those of the name and of the turning.
fn is_first(undrawn: Undrawn) -> bool
    ensures { result ≡ is_first undrawn }
{
    match undrawn {
        Undrawn::Rule(rule) => rule == 1,
        Undrawn::NoMemory => true,
    }
}

/// The placement at this offset, which calls its cell so where it writes it. The fields have taken the record.
pub(crate) fn placing_of(
    alloc: Global,
    bytes: &[u8],
    fields: &Fields<'_>,
    outline: Outline,
    called: Option<Called>,
    flips: bool,
    turning: Turning,
    at: usize,
) -> Result<Placing, Refusal<OasBad>>
    requires near { IsPlaceWithin (2 ^ 40) fields.now.placement }
    requires turning { IsTurning turning }
    requires called { AreCalledWithin bytes.now called }
    requires cell { IsSome fields.now.cell }
    ensures placed { IfOk result (λ p. the_placing_of p ≡ placed_by fields.now flips turning (repetition_kept outline.repeats fields.now.repetition)) }
    ensures grid { IfOk result IsPlacingOnGrid }
    ensures kept { IfOk result (λ _. (rule : ℕ) → KeepsPlaced bytes.now called turning (repetition_kept outline.repeats fields.now.repetition) rule) }
    ensures broken { IfFault result (IsRefusedBy (KeepsPlaced bytes.now called turning (repetition_kept outline.repeats fields.now.repetition)) at) }
{
    let repetition = repetition_in(fields, outline.repeats);
    let offsets = match offsets_in(alloc, repetition) {
        Ok(offsets) => offsets,
        Err(undrawn) => {
            if is_first(undrawn) {
                return Err(bad_at(undrawn, at));
            }
            return match named_orient(alloc, bytes, called, flips, turning, at) {
                Ok(_) => Err(bad_at(undrawn, at)),
                Err(bad) => Err(bad),
            };
        }
    };
    let orient = match named_orient(alloc, bytes, called, flips, turning, at) {
        Ok(orient) => orient,
        Err(bad) => return Err(bad),
    };
    let Some(target) = fields.cell else {
        return Err(Refusal::NoMemory);
    };
    let at = doubled(point_of(fields.placement));
    Ok(Placing {
        target,
        orient,
        at,
        offsets,
    })
}
