//! Joined lists cut to some rows.
ghost use Rattle.std.specs.Prelude.{◌≡◌, ◌⊎◌, ◌<ℤ◌, ◌-ℤ◌, pos, true, All, IfOk, map, IsPermutation};
ghost use Rattle.std.specs.List.{filter};
ghost use Rattle.half_grid.specs.JoinedLists.{IsJoined};
ghost use Rattle.half_grid.specs.Trapezoids.{IsShot, trapezoid};
ghost use Rattle.half_grid.specs.Windows.{RowRange};
ghost use Rattle.band_areas.specs.Cuts.{cut_to, ends_in, reaches_top, top_place, PlacesAscend, IsCutTo};

use crate::groups::Row;
use geo_stream::NoMemory;
use half_grid::{Trap, Window, place_of};
use std::alloc::Global;

// The rows of a trapezoid that lie in the window, of which it has some.
fn cut_to(trap: &Trap, rows: Window) -> Trap
    requires some { rows.y0 <ℤ rows.y1 }
    requires meets { (ends_in rows trap.now ≡ true) ⊎ (reaches_top rows trap.now ≡ true) }
    ensures { result ≡ cut_to rows trap.now }
{
    let bottom = trap.y0().max(rows.y0());
    let top = trap.y1().min(rows.y1());
    Trap::of(bottom, top, trap.left(), trap.right())
}

// Whether a trapezoid ends in the rows, below their top.
fn ends_in(trap: &Trap, rows: Window) -> bool
    ensures { result ≡ ends_in rows trap.now }
{
    rows.y0() < trap.y1() && trap.y1() < rows.y1()
}

// Whether a trapezoid has rows of these and reaches their top.
fn reaches_top(trap: &Trap, rows: Window) -> bool
    ensures { result ≡ reaches_top rows trap.now }
{
    trap.y0() < rows.y1() && rows.y1() <= trap.y1()
}

// The trapezoids that end in the rows, below their top, cut to the rows.
fn ended(alloc: Global, traps: &[Trap], rows: Window) -> Result<Vec<Trap>, NoMemory>
    requires { rows.y0 <ℤ rows.y1 }
    ensures { IfOk result (λ list. list.items ≡ map (cut_to rows) (filter (ends_in rows) traps.now)) }
{
    let mut list = Vec::new(alloc);
    for trap in traps {
        if ends_in(trap, rows) {
            list.push(cut_to(trap, rows))?;
        }
    }
    Ok(list)
}

// The trapezoids that reach the top of the rows, cut to the rows.
fn reaching(alloc: Global, traps: &[Trap], rows: Window) -> Result<Vec<Trap>, NoMemory>
    requires { rows.y0 <ℤ rows.y1 }
    ensures { IfOk result (λ list. list.items ≡ map (cut_to rows) (filter (reaches_top rows) traps.now)) }
{
    let mut list = Vec::new(alloc);
    for trap in traps {
        if reaches_top(trap, rows) {
            list.push(cut_to(trap, rows))?;
        }
    }
    Ok(list)
}

// The row below the top.
fn top_row(trap: &Trap) -> Row
    ensures row { result.y ≡ trap.now.y1 -ℤ pos 1 }
    ensures shot { IsShot trap.now }
{
    Row { y: trap.y1() - 1 }
}

// The place of a trapezoid's left line in the row below its top.
pub(crate) fn top_place(trap: &Trap) -> i64
    ensures { result ≡ top_place trap.now }
{
    let row = top_row(trap);
    place_of(trap.left(), row.y)
}

// Sorts trapezoids of one top from left to right. It takes no memory.
fn sort_from_left(traps: &mut Vec<Trap>)
    ensures permutation { IsPermutation traps.old.items traps.new.items }
    ensures ascend { PlacesAscend traps.new.items }
{
    traps.sort_unstable_by_key(|trap| top_place(trap));
}

/// The joined list in some rows, from a joined list of any window: its trapezoids that meet the rows, cut to them. Those
/// that end below the top of the rows stand as before. Those that reach it end together now, and are sorted from left to
/// right. The time is that of a pass through all and of that sort.
pub(crate) fn within(alloc: Global, traps: &[Trap], rows: Window) -> Result<Vec<Trap>, NoMemory>
    requires some { rows.y0 <ℤ rows.y1 }
    requires shots { All IsShot traps.now }
    ensures shots { IfOk result (λ part. All IsShot part.items) }
    ensures cut { (window : RowRange) → IsJoined window traps.now → IfOk result (λ part. IsCutTo rows traps.now part.items) }
{
    let mut list = ended(alloc, traps, rows)?;
    let mut last = reaching(alloc, traps, rows)?;
    sort_from_left(&mut last);
    list.extend_from_slice(last.as_slice())?;
    Ok(list)
}
