//! The verdict on the shots of an output.
ghost use Rattle.std.specs.Prelude.{◌≡◌, ◌↔◌, ◌<◌, ℕ, IfOk, OnErr, IfSome, IfNone, All, length};
ghost use Rattle.half_grid.specs.Trapezoids.{IsShot, CoversExactly};
ghost use Rattle.half_grid.specs.declared.plane.Tile.{Tile};
ghost use Rattle.shot_checker.specs.Verdicts.{Fits, IsFirstTooLarge};
ghost use Rattle.shot_checker.specs.declared.verdicts.Verdict.TheVariants.{Exact, Miscovered, TooLarge};
ghost use Rattle.file_check.specs.Certificates.{IsFirstWrongTile, IsCertified, IsMiscover};
ghost use Rattle.deck_plan.specs.Plans.{planned_area};

use crate::bands::fault_of_band;
use crate::front::{Front, ascending, fault_in};
use crate::outside::{rows_below, rows_from};
use crate::progress::Whole;
use band_areas::BandAreas;
use deck_plan::{Plan, first_band, next_band};
use depot::Depot;
use geo_stream::NoMemory;
use half_grid::Trap;
use shot_checker::{Fault, Verdict, too_large};
use std::alloc::Global;

// Each of them is a shot, as every trapezoid is. It costs nothing.
fn are_shots(traps: &[Trap])
    ensures { All IsShot traps.now }
{
    for trap in traps {
        let _bottom = trap.y0();
    }
}

// The first fault of what the shots cover of an output's area, anywhere in the plane. The depot is told how far that is.
fn fault_of_output<D: Depot>(
    alloc: Global,
    depot: &mut D,
    plan: &Plan,
    output: usize,
    shots: &[Trap],
) -> Result<Option<Fault>, NoMemory>
    requires output { output < length plan.now.deck.outputs }
    requires shots { All IsShot shots.now }
    ensures fault { IfOk result (λ answer. IfSome answer (λ fault. IsFirstWrongTile (planned_area plan.now output) shots.now fault.tile fault.count fault.wanted)) }
    ensures none { IfOk result (λ answer. IfNone answer (CoversExactly shots.now (planned_area plan.now output))) }
    ensures content { D.content depot.new ≡ D.content depot.old }
    ensures counts { D.counts depot.new ≡ D.counts depot.old }
{
    let rows = plan.rows(output);
    let whole = Whole {
        rows,
        shots: shots.len(),
    };
    depot.note(whole.up_to(rows.y0()));
    let sorted = ascending(alloc, shots)?;
    let mut front = Front {
        meeting: Vec::new(alloc),
        spare: Vec::new(alloc),
        later: sorted.as_slice(),
    };
    let deck = plan.deck();
    let mut band = first_band(deck, rows);
    if let Some(fault) = fault_in(alloc, &mut front, &[], rows_below(band))? {
        return Ok(Some(fault));
    }
    let mut areas = BandAreas::new(alloc, plan, output);
    while band.y0() < rows.y1() {
        let found = fault_of_band(
            alloc, depot, plan, output, &mut areas, &mut front, &whole, band,
        )?;
        if let Some(fault) = found {
            return Ok(Some(fault));
        }
        band = next_band(deck, band);
    }
    fault_in(alloc, &mut front, &[], rows_from(band))
}

/// The verdict on shots of an output of the deck, whoever made them. TooLarge where some shot doesn't fit the deck's
/// limits, with the first such shot. Otherwise Miscovered where some tile of the plane isn't in exactly one shot if it
/// is in the output's area, and in none otherwise: with the lowest such tile, leftmost in its row, its number of shots
/// and its wanted number. Otherwise Exact. Want of memory is the only refusal, and never comes where some shot doesn't
/// fit.
///
/// The area is computed band by band, each in strips of rows, from below, up to the first fault. Shots are sorted by
/// their lower ends once, and each is looked at in the strips that it meets, and with all others in the rows below and
/// above all bands. The depot is told how many of the output's rows are compared, and is as before.
pub fn check_output<D: Depot>(
    alloc: Global,
    depot: &mut D,
    plan: &Plan,
    output: usize,
    shots: &[Trap],
) -> Result<Verdict, NoMemory>
    requires { output < length plan.now.deck.outputs }
    ensures exact { IfOk result (λ verdict. (verdict ≡ Exact) ↔ IsCertified plan.now output shots.now) }
    ensures miscovered { IfOk result (λ verdict. (t : Tile) (count wanted : ℕ) → (verdict ≡ Miscovered t count wanted) ↔ IsMiscover plan.now output shots.now t count wanted) }
    ensures too_large { IfOk result (λ verdict. (k : ℕ) → (verdict ≡ TooLarge k) ↔ IsFirstTooLarge shots.now plan.now.deck.limits k) }
    ensures memory { OnErr result (All (Fits plan.now.deck.limits) shots.now) }
    ensures content { D.content depot.new ≡ D.content depot.old }
    ensures counts { D.counts depot.new ≡ D.counts depot.old }
{
    if let Some(k) = too_large(shots, &plan.deck().limits) {
        return Ok(Verdict::TooLarge(k));
    }
    are_shots(shots);
    match fault_of_output(alloc, depot, plan, output, shots)? {
        None => Ok(Verdict::Exact),
        Some(fault) => Ok(Verdict::Miscovered(fault.tile, fault.count, fault.wanted)),
    }
}
