//! The area of an output, in some rows of windows after others.
ghost use Rattle.std.specs.Prelude.{◌≡◌, ◌<◌, ℤ, ◌*ℤ◌, ◌≤ℤ◌, ◌<ℤ◌, IfOk, length, []};
ghost use Rattle.std.specs.List.{All};
ghost use Rattle.half_grid.specs.JoinedLists.{IsInWindow};
ghost use Rattle.density_map.specs.Windows.{IsWindowSize};
ghost use Rattle.deck_plan.specs.Plans.{planned_area};
ghost use Rattle.density_report.specs.Rows.{rows_of, AreFewRows, AreTrapsOf, IsBatch, IsFilled, IsPassed, IsPortion};

use crate::maps::put_maps;
use crate::strips::{
    Batch, Mesh, Portion, Strip, above, doubled, from_strip, lower, row_of, rows_of,
};
use deck_plan::Plan;
use density_map::MapRow;
use geo_stream::NoMemory;
use half_grid::Trap;
use std::alloc::Global;

// The joined list of an output's area in the rows of these windows. Only memory that runs out refuses it.
fn area_in(alloc: Global, plan: &Plan, output: usize, batch: &Batch) -> Result<Vec<Trap>, NoMemory>
    requires output { output < length plan.now.deck.outputs }
    requires batch { IsBatch batch.now }
    requires few { AreFewRows batch.now }
    ensures { IfOk result (λ traps. AreTrapsOf plan.now output batch.now traps.items) }
{
    let traps = plan.area(alloc, output, rows_of(batch))?;
    Ok(traps)
}

// The lower of a row of windows and that which has the trapezoid's lowest row.
fn lower_of(first: &Strip, trap: &Trap) -> Strip
    requires { IsWindowSize first.now.size }
    ensures size { result.size ≡ first.now.size }
    ensures no_higher { result.row ≤ℤ first.now.row }
    ensures below { (result.row *ℤ result.size) ≤ℤ trap.now.y0 }
    ensures greatest { (row : ℤ) → row ≤ℤ first.now.row → (row *ℤ first.now.size) ≤ℤ trap.now.y0 → row ≤ℤ result.row }
{
    let mesh = Mesh { size: first.size };
    let row = row_of(&mesh, trap.y0());
    if first.row <= row {
        return *first;
    }
    Strip {
        size: first.size,
        row,
    }
}

// The first row of windows that has some row of the trapezoids, or the end of the batch where there is none.
fn first_of(batch: &Batch, traps: &[Trap]) -> Strip
    requires batch { IsBatch batch.now }
    requires inside { All (IsInWindow (rows_of batch.now)) traps.now }
    ensures size { result.size ≡ batch.now.mesh.size }
    ensures from { batch.now.row ≤ℤ result.row }
    ensures up_to { result.row ≤ℤ batch.now.end }
    ensures below { All (λ z. (result.row *ℤ result.size) ≤ℤ z.y0) traps.now }
{
    let mut first = Strip {
        size: batch.mesh.size,
        row: batch.end,
    };
    for trap in traps {
        first = lower_of(&first, trap);
    }
    first
}

// Passes by rows of windows in which the output has nothing: those that are left are from the first one in which it has
// something, where there is any. Each time it asks for twice as many rows, so a gap takes a number of areas that grows as
// its logarithm does, until an area is of as many rows as one is asked for at once.
fn skip(
    alloc: Global,
    plan: &Plan,
    output: usize,
    left: &Batch,
    portion: Portion,
) -> Result<Batch, NoMemory>
    requires output { output < length plan.now.deck.outputs }
    requires left { IsBatch left.now }
    requires portion { IsPortion left.now.mesh.size portion }
    ensures { IfOk result (λ new. IsPassed (planned_area plan.now output) left.now new) }
{
    let mut rest = *left;
    let mut portion = portion;
    while rest.row < rest.end {
        portion = doubled(&portion);
        let batch = lower(&rest, &portion);
        let traps = area_in(alloc, plan, output, &batch)?;
        let first = first_of(&batch, traps.as_slice());
        rest = from_strip(&rest, &first);
        if first.row < batch.end {
            return Ok(rest);
        }
    }
    Ok(rest)
}

/// Puts the counts of the first of the rows of windows that are left, as many as the portion has, and answers these rows of
/// windows. Where the output has nothing in them it puts none, and answers those from the next one on in which it has
/// something.
pub(crate) fn fill(
    alloc: Global,
    plan: &Plan,
    output: usize,
    left: &Batch,
    portion: Portion,
    maps: &mut Vec<MapRow>,
) -> Result<Batch, NoMemory>
    requires output { output < length plan.now.deck.outputs }
    requires left { IsBatch left.now }
    requires portion { IsPortion left.now.mesh.size portion }
    requires some { left.now.row <ℤ left.now.end }
    requires empty { maps.old.items ≡ [] }
    ensures { IfOk result (λ new. IsFilled (planned_area plan.now output) left.now new maps.new.items) }
{
    let batch = lower(left, &portion);
    let traps = area_in(alloc, plan, output, &batch)?;
    if traps.is_empty() {
        return skip(alloc, plan, output, &above(left, &batch), portion);
    }
    put_maps(alloc, &batch, traps.as_slice(), maps)?;
    Ok(*left)
}
