//! The shots that a record gives.
ghost use Rattle.std.specs.Prelude.{◌≡◌, ◌⊎◌, ◌+ℤ◌, ◌++◌, ◌<◌, ◌≤◌, ◌^◌, List as Items, map, OnOk, IfErr, All, unsigned_abs};
ghost use Rattle.geo_stream.specs.Refusals.{IfFault};
ghost use Rattle.half_grid.specs.Trapezoids.{Trapezoid, IsShot};
ghost use Rattle.oas_lex.specs.ShotText.{fields_of};
ghost use Rattle.shot_repeat.specs.Values.{moved, moved_from};
ghost use Rattle.shot_repeat.specs.Giving.{IsGivenBy};

use crate::refusing::PackBad;
use geo_stream::{List, Refusal};
use half_grid::{Point, Trap};
use oas_lex::ShotFields;
use shot_reader::trap_of;

// One step further. The place is within reach, so no sum is too large.
fn stepped(fields: &ShotFields, step: Point) -> ShotFields
    requires x { unsigned_abs fields.now.x ≤ 2 ^ 46 }
    requires y { unsigned_abs fields.now.y ≤ 2 ^ 46 }
    requires step_x { unsigned_abs step.x < 2 ^ 62 }
    requires step_y { unsigned_abs step.y < 2 ^ 62 }
    ensures { result ≡ moved fields.now step 1 }
{
    ShotFields {
        layer: fields.layer,
        datatype: fields.datatype,
        width: fields.width,
        height: fields.height,
        left_delta: fields.left_delta,
        right_delta: fields.right_delta,
        x: fields.x + step.x,
        y: fields.y + step.y,
    }
}

/// Puts this many shots last, the first of these fields, each next one moved by one step more. Illegal with the offset
/// where the fields of one are those of no shot.
pub(crate) fn put_shots(
    shots: &mut List<Trap>,
    fields: &ShotFields,
    step: Point,
    count: u64,
    at: usize,
) -> Result<(), Refusal<PackBad>>
    requires step_x { unsigned_abs step.x < 2 ^ 62 }
    requires step_y { unsigned_abs step.y < 2 ^ 62 }
    ensures ok { OnOk result ((given : Items Trapezoid) × (shots.new ≡ shots.old ++ given) × IsGivenBy fields.now step count given) }
    ensures refused { IfFault result (λ bad. (bad ≡ PackBad.Illegal at)
        × ((given : Items Trapezoid) → IsGivenBy fields.now step count given → ⊥)) }
{
    let mut next = *fields;
    let mut done = 0;
    while done < count {
        let Some(shot) = trap_of(&next) else {
            return Err(Refusal::Fault(PackBad::Illegal(at)));
        };
        shots.push(shot)?;
        next = stepped(&next, step);
        done += 1;
    }
    Ok(())
}

/// Whether this many shots, the first of these fields, each next one moved by one step more, are shots. Illegal with
/// the offset where the fields of one are those of no shot. It takes no memory.
pub(crate) fn look_at_shots(
    fields: &ShotFields,
    step: Point,
    count: u64,
    at: usize,
) -> Result<(), PackBad>
    requires step_x { unsigned_abs step.x < 2 ^ 62 }
    requires step_y { unsigned_abs step.y < 2 ^ 62 }
    ensures ok { OnOk result ((given : Items Trapezoid) × IsGivenBy fields.now step count given) }
    ensures refused { IfErr result (λ bad. (bad ≡ PackBad.Illegal at)
        × ((given : Items Trapezoid) → IsGivenBy fields.now step count given → ⊥)) }
{
    let mut next = *fields;
    let mut done = 0;
    while done < count {
        let Some(shot) = trap_of(&next) else {
            return Err(PackBad::Illegal(at));
        };
        let _bottom = shot.y0();
        next = stepped(&next, step);
        done += 1;
    }
    Ok(())
}
