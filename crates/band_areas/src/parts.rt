//! Parts of an output's area, each the joined list in some rows.
ghost use Rattle.std.specs.Prelude.{◌≡◌, ◌≤ℤ◌, ◌<ℤ◌, pos, ℕ, All, IfOk, IfSome, IsTrue};
ghost use Rattle.deck_plan.specs.Needs.{IsBand};
ghost use Rattle.deck_plan.specs.Plans.{Planned};
ghost use Rattle.band_areas.specs.Parts.{IsSoundPart, IsPart, AreParts, IsWithin};

use crate::cuts::within;
use crate::groups::{lower, middle, upper};
use geo_stream::NoMemory;
use half_grid::{Trap, Window};
use std::alloc::Global;

/// The joined list of an output's area in some rows.
#[derive(Drop)]
pub struct Part {
    /// The rows.
    pub rows: Window,
    /// The list.
    pub traps: Vec<Trap>,
}

/// The part of a part in some of its rows.
fn part_in(alloc: Global, part: &Part, rows: Window) -> Result<Part, NoMemory>
    requires sound { IsSoundPart part.now }
    requires rows { IsBand rows }
    requires within { IsWithin rows part.now.rows }
    ensures sound { IfOk result IsSoundPart }
    ensures rows { IfOk result (λ cut. cut.rows ≡ rows) }
    ensures part { (p : Planned) (k : ℕ) → IsPart p k part.now → IfOk result (IsPart p k) }
{
    let traps = within(alloc, part.traps.as_slice(), rows)?;
    Ok(Part { rows, traps })
}

// Whether a part has the rows of a band.
fn has_rows(part: &Part, band: Window) -> bool
    ensures { IsTrue result → IsWithin band part.now.rows }
{
    if band.y0() < part.rows.y0() {
        return false;
    }
    band.y1() <= part.rows.y1()
}

/// Takes the last part, where it has the rows of the band. Parts that don't are let go.
pub(crate) fn taken(parts: &mut Vec<Part>, band: Window) -> Option<Part>
    ensures kept { (p : Planned) (k : ℕ) → AreParts p k parts.old.items → AreParts p k parts.new.items }
    ensures part { (p : Planned) (k : ℕ) → AreParts p k parts.old.items → IfSome result (IsPart p k) }
    ensures within { IfSome result (λ part. IsWithin band part.rows) }
{
    while let Some(part) = parts.pop() {
        if has_rows(&part, band) {
            return Some(part);
        }
    }
    None
}

// The part of a part in a band with which it ends.
fn from_bottom(alloc: Global, part: Part, band: Window) -> Result<Part, NoMemory>
    requires sound { IsSoundPart part }
    requires band { IsBand band }
    requires within { IsWithin band part.rows }
    requires top { part.rows.y1 ≤ℤ band.y1 }
    ensures rows { IfOk result (λ cut. cut.rows ≡ band) }
    ensures part { (p : Planned) (k : ℕ) → IsPart p k part → IfOk result (IsPart p k) }
{
    if part.rows.y0() < band.y0() {
        return part_in(alloc, &part, band);
    }
    Ok(part)
}

/// The part of a part in a band. The rows above the band are put at the end, in parts of which each has about twice the
/// rows of the next: each trapezoid is looked at some log2 times the number of bands.
pub(crate) fn narrowed(
    alloc: Global,
    parts: &mut Vec<Part>,
    part: Part,
    band: Window,
) -> Result<Part, NoMemory>
    requires sound { IsSoundPart part }
    requires band { IsBand band }
    requires within { IsWithin band part.rows }
    ensures rows { IfOk result (λ cut. cut.rows ≡ band) }
    ensures part { (p : Planned) (k : ℕ) → IsPart p k part → IfOk result (IsPart p k) }
    ensures kept { (p : Planned) (k : ℕ) → IsPart p k part → AreParts p k parts.old.items → AreParts p k parts.new.items }
{
    let mut part = part;
    while band.y1() < part.rows.y1() {
        let row = middle(band, part.rows);
        let rest = part_in(alloc, &part, upper(part.rows, row))?;
        parts.push(rest)?;
        part = part_in(alloc, &part, lower(part.rows, row))?;
    }
    from_bottom(alloc, part, band)
}
