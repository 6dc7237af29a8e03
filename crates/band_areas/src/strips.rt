//! The area of an output in a band, strip by strip.
ghost use Rattle.std.specs.Prelude.{◌≡◌, ◌<◌, ◌⊎◌, ◌++◌, ◌≤ℤ◌, ◌<ℤ◌, pos, [], ℕ, List, None, IfOk, IsSome, length};
ghost use Rattle.half_grid.specs.Trapezoids.{Trapezoid};
ghost use Rattle.deck_plan.specs.Needs.{IsAskedBand};
ghost use Rattle.deck_plan.specs.Plans.{Planned, IsBandOf};
ghost use Rattle.band_areas.specs.Parts.{AreAreasOf};
ghost use Rattle.band_areas.specs.Strips.{HasGiven, IsBegun, IsTopFor, given_by, left_in};

use crate::areas::BandAreas;
use crate::groups::Row;
use crate::stacks::stacked;
use deck_plan::Plan;
use geo_stream::NoMemory;
use half_grid::{Trap, Window};
use std::alloc::Global;
use std::mem::replace;

/// The joined list of an output's area in a band, part by part in its order. Only what was swept last is in memory: the
/// trapezoids of a strip of rows, and those that may still grow.
#[derive(Drop)]
pub struct Strips {
    band: Window,
    next: Row,
    waiting: Vec<Trap>,
    growing: Vec<Trap>,
}

// The top from which on trapezoids of a strip may still grow: above all of them where the strip is the last.
fn growing_top(rows: Window, band: Window) -> Row
    requires band { IsAskedBand band }
    requires high { rows.y1 ≤ℤ band.y1 }
    ensures { IsTopFor rows band result.y }
{
    if rows.y1() < band.y1() {
        return Row { y: rows.y1() };
    }
    Row { y: band.y1() + 1 }
}

impl Strips {
    /// The list of a band, of which nothing is given yet. It takes no memory.
    pub fn new(alloc: Global, band: Window) -> Strips
        requires { IsAskedBand band }
        ensures given { (p : Planned) (k : ℕ) → HasGiven p k result [] }
        ensures band { result.band ≡ band }
    {
        Strips {
            band,
            next: Row { y: band.y0() },
            waiting: Vec::new(alloc),
            growing: Vec::new(alloc),
        }
    }

    /// The row up to which the band was gone through: what isn't given yet of the rows below it waits, or may still grow.
    pub fn row(&self) -> i64
        ensures { result ≡ self.now.next.y }
    {
        self.next.y
    }

    // Puts the list of the next strip, and answers what ends at its bottom.
    fn put(&mut self, alloc: Global, rows: Window, strip: Vec<Trap>) -> Result<Vec<Trap>, NoMemory>
        requires begun { IsBegun self.old }
        requires waiting { self.old.waiting.items ≡ [] }
        requires strip { (p : Planned) × (k : ℕ) × IsBandOf p k rows strip.items }
        requires from { rows.y0 ≡ self.old.next.y }
        requires some { rows.y0 <ℤ rows.y1 }
        requires to { rows.y1 ≤ℤ self.old.band.y1 }
        ensures given { (p : Planned) (k : ℕ) (given : List Trapezoid) → HasGiven p k self.old given → IsBandOf p k rows strip.items
            → IfOk result (λ ended. HasGiven p k self.new (given ++ ended.items)) }
        ensures band { self.new.band ≡ self.old.band }
        ensures next { IfOk result (λ ended. self.new.next.y ≡ rows.y1) }
    {
        let top = growing_top(rows, self.band);
        let stack = stacked(alloc, self.growing.as_slice(), self.next, strip, top)?;
        self.next = Row { y: rows.y1() };
        self.waiting = stack.below;
        self.growing = stack.growing;
        Ok(stack.ended)
    }

    /// The next trapezoids of the list, by the plan and the output that the areas were made for. None where all were given.
    /// Only memory that runs out refuses it.
    pub fn next(
        &mut self,
        alloc: Global,
        areas: &mut BandAreas,
        plan: &Plan,
        output: usize,
    ) -> Result<Option<Vec<Trap>>, NoMemory>
        requires output { output < length plan.now.deck.outputs }
        requires areas { AreAreasOf plan.now output areas.old }
        requires begun { (given : List Trapezoid) × HasGiven plan.now output self.old given }
        ensures given { (given : List Trapezoid) → HasGiven plan.now output self.old given
            → IfOk result (λ next. HasGiven plan.now output self.new (given ++ given_by next)) }
        ensures all { (given : List Trapezoid) → HasGiven plan.now output self.old given
            → IfOk result (λ next. next ≡ None → IsBandOf plan.now output self.old.band given) }
        ensures band { self.new.band ≡ self.old.band }
        ensures areas { AreAreasOf plan.now output areas.new }
        ensures less { IfOk result (λ next. IsSome next → left_in self.new < left_in self.old) }
    {
        if !self.waiting.is_empty() {
            let waiting = replace(&mut self.waiting, Vec::new(alloc));
            return Ok(Some(waiting));
        }
        if self.band.y1() <= self.next.y {
            return Ok(None);
        }
        let rows = areas.strip(self.band, self.next);
        let strip = areas.area(alloc, plan, output, rows)?;
        areas.adapt(strip.len(), self.growing.len());
        let ended = self.put(alloc, rows, strip)?;
        Ok(Some(ended))
    }
}
