//! The bands of an output, put to its writer one after another.
ghost use Rattle.std.specs.Prelude.{◌≡◌, ◌⊎◌, pos, ◌≤ℤ◌, ◌<ℤ◌, ◌<◌, ◌+◌, ◌^◌, List, None, IsTrue, IsSome, IfOk, IfErr, OnOk, OnErr, length, ◌++◌};
ghost use Rattle.std.specs.Int.{int_gap, int_min};
ghost use Rattle.depot.specs.Counting.{CountsWritesInMemory};
ghost use Rattle.depot.specs.Doing.{Writes};
ghost use Rattle.depot.specs.declared.outside.DepotBad.TheVariants.{NoMemory};
ghost use Rattle.depot.specs.declared.outside.Phase.TheVariants.{Covering};
ghost use Rattle.half_grid.specs.Trapezoids.{Trapezoid};
ghost use Rattle.shot_writer.specs.Writing.{AreSumsAfter, no_sums, records_of, triangles_of};
ghost use Rattle.shot_writer.specs.WriterView.{pair_of, sums_of, refusal_of};
ghost use Rattle.band_areas.specs.Parts.{AreAreasOf};
ghost use Rattle.band_areas.specs.Strips.{HasGiven, given_by, left_in};
ghost use Rattle.deck_plan.specs.Plans.{IsBandOf};
ghost use Rattle.deck_plan.specs.Bands.{AreRowsNear};
ghost use Rattle.deck_plan.specs.Needs.{IsAskedBand};
ghost use Rattle.shot_output.specs.Laws.{HasRules};
ghost use Rattle.shot_output.specs.Bands.{band_shots, HasRoomFor, IsBandPut, IsBandPart, IsPut, IsPutPart, HasRows};

use band_areas::{BandAreas, Strips};
use deck_plan::{Plan, first_band, next_band};
use depot::{Depot, DepotBad, Phase, Progress};
use fracture::Cuts;
use geo_stream::FromSlice;
use half_grid::{Trap, Window};
use shot_writer::ShotWriter;
use std::alloc::Global;

/// How far an output with these rows is, once the rows below this one are put to the writer.
fn progress_at(rows: Window, row: i64, writer: &ShotWriter) -> Progress
    ensures phase { result.phase ≡ Covering }
    ensures rows { result.rows ≡ int_gap rows.y0 (int_min row rows.y1) }
    ensures all_rows { result.all_rows ≡ int_gap rows.y0 rows.y1 }
    ensures shots { result.shots ≡ (sums_of writer.now).shots }
{
    let shots = writer.sums().shots;
    Progress::up_to(Phase::Covering, rows.y0(), rows.y1(), row, shots)
}

// Puts the shots of some trapezoids to the writer.
fn put_traps<D: Depot>(
    depot: &mut D,
    writer: &mut ShotWriter,
    plan: &Plan,
    traps: &[Trap],
) -> Result<(), DepotBad>
    requires rules { HasRules plan.now.deck }
    requires current { IsTrue D.tells → IsSome (D.content depot.old).current }
    requires kept { refusal_of writer.old ≡ None }
    requires room { (sums_of writer.old).triangles + triangles_of (band_shots plan.now traps.now) < 2 ^ 127 }
    ensures content { Writes D.tells (D.content depot.old) (D.content depot.new) (records_of (pair_of writer.old) (band_shots plan.now traps.now)) result }
    ensures sums { OnOk result (AreSumsAfter (sums_of writer.old) (band_shots plan.now traps.now) (sums_of writer.new)) }
    ensures pair { pair_of writer.new ≡ pair_of writer.old }
    ensures kept { OnOk result (refusal_of writer.new ≡ None) }
    ensures current { IsTrue D.tells → (D.content depot.new).current ≡ (D.content depot.old).current }
    ensures counts { CountsWritesInMemory (D.counts depot.old) (D.counts depot.new) result }
{
    let mut shots = Cuts::new(FromSlice::new(traps), plan.deck().limits);
    writer.put(depot, &mut shots)
}

// The next trapezoids of a band. None where all were given.
fn next_traps(
    alloc: Global,
    strips: &mut Strips,
    plan: &Plan,
    areas: &mut BandAreas,
    output: usize,
) -> Result<Option<Vec<Trap>>, DepotBad>
    requires output { output < length plan.now.deck.outputs }
    requires areas { AreAreasOf plan.now output areas.old }
    requires begun { (given : List Trapezoid) × HasGiven plan.now output strips.old given }
    ensures given { (given : List Trapezoid) → HasGiven plan.now output strips.old given
        → IfOk result (λ next. HasGiven plan.now output strips.new (given ++ given_by next)) }
    ensures all { (given : List Trapezoid) → HasGiven plan.now output strips.old given
        → IfOk result (λ next. next ≡ None → IsBandOf plan.now output strips.old.band given) }
    ensures band { strips.new.band ≡ strips.old.band }
    ensures areas { AreAreasOf plan.now output areas.new }
    ensures less { IfOk result (λ next. IsSome next → left_in strips.new < left_in strips.old) }
    ensures refused { IfErr result (λ bad. bad ≡ NoMemory) }
{
    match strips.next(alloc, areas, plan, output) {
        Ok(traps) => Ok(traps),
        Err(_wanting) => Err(DepotBad::NoMemory),
    }
}

/// Puts the shots of one band of an output to the writer, strip by strip, and tells the depot how far the output with these
/// rows is. After a refusal a prefix of their records is written.
fn put_band<D: Depot>(
    alloc: Global,
    depot: &mut D,
    writer: &mut ShotWriter,
    plan: &Plan,
    areas: &mut BandAreas,
    output: usize,
    rows: Window,
    band: Window,
) -> Result<(), DepotBad>
    requires output { output < length plan.now.deck.outputs }
    requires areas { AreAreasOf plan.now output areas.old }
    requires rules { HasRules plan.now.deck }
    requires band { IsAskedBand band }
    requires current { IsTrue D.tells → IsSome (D.content depot.old).current }
    requires kept { refusal_of writer.old ≡ None }
    requires room { HasRoomFor plan.now output band (sums_of writer.old) }
    ensures ok { OnOk result (IsBandPut plan.now output band (pair_of writer.old) D.tells
        (D.content depot.old) (D.content depot.new) (sums_of writer.old) (sums_of writer.new)) }
    ensures refused { OnErr result (IsBandPart plan.now output band (pair_of writer.old) D.tells
        (D.content depot.old) (D.content depot.new)) }
    ensures areas { AreAreasOf plan.now output areas.new }
    ensures pair { pair_of writer.new ≡ pair_of writer.old }
    ensures kept { OnOk result (refusal_of writer.new ≡ None) }
    ensures counts { CountsWritesInMemory (D.counts depot.old) (D.counts depot.new) result }
{
    plan.has_lists(output);
    let mut strips = Strips::new(alloc, band);
    while let Some(traps) = next_traps(alloc, &mut strips, plan, areas, output)? {
        put_traps(depot, writer, plan, traps.as_slice())?;
        depot.note(progress_at(rows, strips.row(), writer));
    }
    Ok(())
}

/// Puts all shots of an output to its writer, band by band in ascending order, and tells the depot how far that is.
/// After a refusal a prefix of the records of all its shots is written.
pub(crate) fn put_bands<D: Depot>(
    alloc: Global,
    depot: &mut D,
    writer: &mut ShotWriter,
    plan: &Plan,
    output: usize,
    rows: Window,
) -> Result<(), DepotBad>
    requires output { output < length plan.now.deck.outputs }
    requires rules { HasRules plan.now.deck }
    requires few { plan.now.deck.band ≤ℤ pos 16777216 }
    requires narrow { AreRowsNear rows }
    requires outside { HasRows plan.now output rows }
    requires current { IsTrue D.tells → IsSome (D.content depot.old).current }
    requires kept { refusal_of writer.old ≡ None }
    requires sums { sums_of writer.old ≡ no_sums }
    ensures ok { OnOk result (IsPut plan.now output (pair_of writer.old) D.tells
        (D.content depot.old) (D.content depot.new) (sums_of writer.new)) }
    ensures refused { OnErr result (IsPutPart plan.now output (pair_of writer.old) D.tells
        (D.content depot.old) (D.content depot.new)) }
    ensures pair { pair_of writer.new ≡ pair_of writer.old }
    ensures kept { OnOk result (refusal_of writer.new ≡ None) }
    ensures counts { CountsWritesInMemory (D.counts depot.old) (D.counts depot.new) result }
{
    plan.has_lists(output);
    let deck = plan.deck();
    let mut band = first_band(deck, rows);
    depot.note(progress_at(rows, rows.y0(), writer));
    let mut areas = BandAreas::new(alloc, plan, output);
    while band.y0() < rows.y1() {
        put_band(alloc, depot, writer, plan, &mut areas, output, rows, band)?;
        band = next_band(deck, band);
    }
    Ok(())
}
