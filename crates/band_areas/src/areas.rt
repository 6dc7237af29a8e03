//! The areas of an output in its bands.
ghost use Rattle.std.specs.Prelude.{◌≡◌, ◌<◌, ◌≤ℤ◌, ◌<ℤ◌, ℕ, pos, All, IfOk, length};
ghost use Rattle.half_grid.specs.Trapezoids.{IsShot};
ghost use Rattle.bool_ops.specs.Operations.{IsJoinedOf};
ghost use Rattle.deck_plan.specs.Areas.{IsInBand};
ghost use Rattle.deck_plan.specs.Bands.{AreRowsNear};
ghost use Rattle.deck_plan.specs.Needs.{IsAskedBand};
ghost use Rattle.deck_plan.specs.Plans.{Planned};
ghost use Rattle.band_areas.specs.Parts.{IsPart, IsWithin, AreAreasOf};

use crate::groups::{Rise, Row, group_of};
use crate::parts::{Part, narrowed, taken};
use crate::rises::{aim_of, first_rise, least_rise, next_rise, number_at_bottom, strip_top};
use deck_plan::Plan;
use geo_stream::NoMemory;
use half_grid::{Trap, Window};
use std::alloc::Global;

// How many rows below the first of a band the output's area in the band looks at of this definition.
fn rows_below_first(plan: &Plan, output: usize, name: usize) -> Rise
    requires output { output < length plan.now.deck.outputs }
    requires name { name < length plan.now.deck.steps }
{
    let Some(row) = Window::new(0, 1) else {
        return Rise { rows: 0 };
    };
    Rise {
        rows: plan.needs(output, name, row).y0().saturating_neg(),
    }
}

fn greater(a: Rise, b: Rise) -> Rise {
    Rise {
        rows: a.rows.max(b.rows),
    }
}

// How many rows beyond a row the output's area looks at. It is for speed alone: no area depends on it.
fn halo_of(plan: &Plan, output: usize) -> Rise
    requires { output < length plan.now.deck.outputs }
{
    let mut halo = Rise { rows: 0 };
    for name in 0..plan.deck().steps.as_slice().len() {
        halo = greater(halo, rows_below_first(plan, output, name));
    }
    halo
}

/// The areas of an output in its bands. Each is asked for by its band, best from below: what was computed of the bands
/// above is kept until one of them is asked for. In another order each answer is the same, and takes longer.
#[derive(Drop)]
pub struct BandAreas {
    halo: Rise,
    rows: Window,
    aim: u64,
    rise: Rise,
    parts: Vec<Part>,
}

impl BandAreas {
    /// The areas of an output, of which none is computed yet. It takes no memory.
    pub fn new(alloc: Global, plan: &Plan, output: usize) -> BandAreas
        requires { output < length plan.now.deck.outputs }
        ensures { AreAreasOf plan.now output result }
    {
        let halo = halo_of(plan, output);
        let rows = plan.rows(output);
        let aim = aim_of(plan.piece_count());
        BandAreas {
            halo,
            rows,
            aim,
            rise: first_rise(plan.weight(), aim, rows),
            parts: Vec::new(alloc),
        }
    }

    /// The rows of the next strip of a band, from this row on.
    pub(crate) fn strip(&self, band: Window, next: Row) -> Window
        requires band { IsAskedBand band }
        requires next { next.y <ℤ band.y1 }
        ensures from { result.y0 ≡ next.y }
        ensures some { result.y0 <ℤ result.y1 }
        ensures to { result.y1 ≤ℤ band.y1 }
    {
        let rise = Rise {
            rows: self.rise.rows.max(least_rise(self.halo).rows),
        };
        let top = strip_top(band, next, rise, self.rows);
        match Window::new(next.y, top.y) {
            Some(rows) => rows,
            None => unreachable!(),
        }
    }

    /// Takes note of how many trapezoids a strip had, and of how many reached it from below.
    pub(crate) fn adapt(&mut self, traps: usize, carried: usize)
        ensures { (p : Planned) (k : ℕ) → AreAreasOf p k self.old → AreAreasOf p k self.new }
    {
        self.rise = next_rise(self.rise, self.aim, traps, carried);
    }

    // The area in the rows of a group of bands, of which this is the lowest.
    fn group(
        &self,
        alloc: Global,
        plan: &Plan,
        output: usize,
        band: Window,
    ) -> Result<Part, NoMemory>
        requires output { output < length plan.now.deck.outputs }
        requires band { IsAskedBand band }
        requires near { AreRowsNear self.now.rows }
        ensures part { IfOk result (IsPart plan.now output) }
        ensures within { IfOk result (λ part. IsWithin band part.rows) }
    {
        let rows = group_of(band, self.halo, self.rows);
        let traps = plan.area(alloc, output, rows)?;
        Ok(Part { rows, traps })
    }

    // A part that has the rows of the band: one that is kept, or that of a group of which this is the lowest band.
    fn part_with(
        &mut self,
        alloc: Global,
        plan: &Plan,
        output: usize,
        band: Window,
    ) -> Result<Part, NoMemory>
        requires output { output < length plan.now.deck.outputs }
        requires band { IsAskedBand band }
        requires areas { AreAreasOf plan.now output self.old }
        ensures part { IfOk result (IsPart plan.now output) }
        ensures within { IfOk result (λ part. IsWithin band part.rows) }
        ensures areas { AreAreasOf plan.now output self.new }
    {
        if let Some(part) = taken(&mut self.parts, band) {
            return Ok(part);
        }
        self.group(alloc, plan, output, band)
    }

    /// The joined list, in the band, of the part of the output's area in the band, by the plan and the output that these
    /// areas were made for. The band has rows, 16,777,216 at most, and lies within reach. Only memory that runs out
    /// refuses it.
    ///
    /// Where the area looks at no more rows beyond a band than the band has, it is what [`Plan::area`] gives. Else it is
    /// computed for a group of bands together, with at least as many rows as it looks at beyond them, so each row is looked
    /// at some three times. Then it is cut at the bands' edges, each trapezoid as often as there are bands that it meets
    /// and some log2 times the number of bands, with a sort of those that are cut.
    pub fn area(
        &mut self,
        alloc: Global,
        plan: &Plan,
        output: usize,
        band: Window,
    ) -> Result<Vec<Trap>, NoMemory>
        requires output { output < length plan.now.deck.outputs }
        requires band { IsAskedBand band }
        requires areas { AreAreasOf plan.now output self.old }
        ensures shots { IfOk result (λ traps. All IsShot traps.items) }
        ensures joined { IfOk result (λ traps. IsJoinedOf band (IsInBand plan.now.cells plan.now.top plan.now.deck output band) traps.items) }
        ensures areas { AreAreasOf plan.now output self.new }
    {
        let part = self.part_with(alloc, plan, output, band)?;
        let cut = narrowed(alloc, &mut self.parts, part, band)?;
        Ok(cut.traps)
    }

    /// The lowest rows of what is left of a band, and the joined list in these rows of the part of the output's area in
    /// them, as [`BandAreas::area`] gives it. They are as many as should have some tens of thousands of trapezoids, or all
    /// that are left. To go through a band, ask for all of it first, and then for its rows above those that were given.
    /// Only memory that runs out refuses it.
    pub fn next_part(
        &mut self,
        alloc: Global,
        plan: &Plan,
        output: usize,
        left: Window,
    ) -> Result<Part, NoMemory>
        requires output { output < length plan.now.deck.outputs }
        requires left { IsAskedBand left }
        requires areas { AreAreasOf plan.now output self.old }
        ensures from { IfOk result (λ part. part.rows.y0 ≡ left.y0) }
        ensures some { IfOk result (λ part. part.rows.y0 <ℤ part.rows.y1) }
        ensures to { IfOk result (λ part. part.rows.y1 ≤ℤ left.y1) }
        ensures shots { IfOk result (λ part. All IsShot part.traps.items) }
        ensures joined { IfOk result (λ part. IsJoinedOf part.rows
            (IsInBand plan.now.cells plan.now.top plan.now.deck output part.rows) part.traps.items) }
        ensures areas { AreAreasOf plan.now output self.new }
    {
        let rows = self.strip(left, Row { y: left.y0() });
        let traps = self.area(alloc, plan, output, rows)?;
        self.adapt(traps.len(), number_at_bottom(traps.as_slice(), rows));
        Ok(Part { rows, traps })
    }
}
