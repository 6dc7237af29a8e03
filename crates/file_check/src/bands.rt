//! The first fault of an output's shots in a band, strip by strip.
ghost use Rattle.std.specs.Prelude.{◌≡◌, ◌<◌, ◌≤ℤ◌, List, IfOk, IfSome, IfNone, length};
ghost use Rattle.half_grid.specs.Trapezoids.{Trapezoid};
ghost use Rattle.half_grid.specs.Windows.{row_range};
ghost use Rattle.deck_plan.specs.Needs.{IsAskedBand};
ghost use Rattle.band_areas.specs.Parts.{AreAreasOf};
ghost use Rattle.file_check.specs.Certificates.{IsFirstWrongTile};
ghost use Rattle.file_check.specs.Fronts.{IsJudgedTo};
ghost use Rattle.deck_plan.specs.Plans.{planned_area};

use crate::front::{Front, fault_in};
use crate::progress::Whole;
use band_areas::BandAreas;
use deck_plan::Plan;
use depot::Depot;
use geo_stream::NoMemory;
use half_grid::Window;
use shot_checker::Fault;
use std::alloc::Global;

// The rows of a band above some of its rows.
fn rows_above(rows: Window, band: Window) -> Window
    requires { rows.y1 ≤ℤ band.y1 }
    ensures { result ≡ row_range rows.y1 band.y1 }
{
    match Window::new(rows.y1(), band.y1()) {
        Some(left) => left,
        None => unreachable!(),
    }
}

/// The first fault of what the shots cover of an output's area, where it is in the band, which begins where the last
/// one ended. The area is computed strip by strip, up to the fault, and each shot is looked at in the strips that it
/// meets. After each strip the depot is told how far the check is of all that is compared.
pub(crate) fn fault_of_band<D: Depot>(
    alloc: Global,
    depot: &mut D,
    plan: &Plan,
    output: usize,
    areas: &mut BandAreas,
    front: &mut Front,
    whole: &Whole,
    band: Window,
) -> Result<Option<Fault>, NoMemory>
    requires output { output < length plan.now.deck.outputs }
    requires areas { AreAreasOf plan.now output areas.old }
    requires judged { (shots : List Trapezoid) × IsJudgedTo plan.now output shots band.y0 front.old }
    requires band { IsAskedBand band }
    ensures areas { AreAreasOf plan.now output areas.new }
    ensures fault { (shots : List Trapezoid) → IsJudgedTo plan.now output shots band.y0 front.old
        → IfOk result (λ answer. IfSome answer (λ fault.
        IsFirstWrongTile (planned_area plan.now output) shots fault.tile fault.count fault.wanted)) }
    ensures none { (shots : List Trapezoid) → IsJudgedTo plan.now output shots band.y0 front.old
        → IfOk result (λ answer. IfNone answer (IsJudgedTo plan.now output shots band.y1 front.new)) }
    ensures content { D.content depot.new ≡ D.content depot.old }
    ensures counts { D.counts depot.new ≡ D.counts depot.old }
{
    let mut left = band;
    while left.y0() < left.y1() {
        let part = areas.next_part(alloc, plan, output, left)?;
        if let Some(fault) = fault_in(alloc, front, part.traps.as_slice(), part.rows)? {
            return Ok(Some(fault));
        }
        left = rows_above(part.rows, left);
        depot.note(whole.up_to(left.y0()));
    }
    Ok(None)
}
