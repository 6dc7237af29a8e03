//! The verdict on a list of shots.
ghost use Rattle.std.specs.Prelude.{◌≡◌, ◌↔◌, ℕ, ℤ, pos, ◌≤ℤ◌, ◌<ℤ◌, ◌^◌, not, IfOk, IfSome, IfNone};
ghost use Rattle.std.specs.Ordering.{int_eq};
ghost use Rattle.half_grid.specs.declared.plane.Tile.{Tile};
ghost use Rattle.shot_checker.specs.Counts.{IsCount, HasCounts};
ghost use Rattle.shot_checker.specs.Verdicts.{IsFirstTooLarge, IsFirstWrongTileInRows, CoversAlike, IsExact, IsMiscover};
ghost use Rattle.shot_checker.specs.declared.verdicts.Verdict.TheVariants.{Exact, Miscovered, TooLarge};

use crate::limits::too_large;
use column_sweep::{LowestTile, lowest, operand_edges};
use geo_stream::NoMemory;
use half_grid::{Limits, Tile, Trap, Window};
use scan_line::Rule;
use std::alloc::Global;

/// The verdict on a list of shots.
#[derive(Clone, Copy, Debug, PartialEq, Eq)]
pub enum Verdict {
    /// Each shot fits the limits, and they cover what they should.
    Exact,
    /// A tile that is in another number of shots than it should be: in how many it is, and in how many it should be.
    Miscovered(Tile, u64, u64),
    /// The number of a shot, counted from 0, that doesn't fit the limits.
    TooLarge(usize),
}

/// A tile that is in another number of shots than it should be.
#[derive(Clone, Copy, Debug, PartialEq, Eq)]
pub struct Fault {
    /// The tile.
    pub tile: Tile,
    /// The number of shots in which it is.
    pub count: u64,
    /// The number of shots in which it should be.
    pub wanted: u64,
}

// The lowest tile, leftmost in its row, that is in another number of shots than of trapezoids of the area, with both
// numbers as windings.
fn first_difference(
    alloc: Global,
    shots: &[Trap],
    area: &[Trap],
    window: Window,
) -> Result<Option<LowestTile>, NoMemory>
    ensures fault { IfOk result (λ answer. IfSome answer (HasCounts shots.now area.now window)) }
    ensures none { IfOk result (λ answer. IfNone answer (CoversAlike shots.now area.now window)) }
{
    let edges = operand_edges(alloc, shots, area, window)?;
    let asked = |count: i128, wanted: i128| -> bool
        ensures { result ≡ not (int_eq count wanted) }
    { count != wanted };
    lowest(alloc, edges, window, Rule::new(asked))
}

// The difference as a fault: the two windings are numbers of trapezoids.
fn fault_of(found: &LowestTile) -> Fault
    requires count { IsCount found.now.a }
    requires wanted { IsCount found.now.b }
    ensures tile { result.tile ≡ found.now.tile }
    ensures count { pos result.count ≡ found.now.a }
    ensures wanted { pos result.wanted ≡ found.now.b }
{
    Fault {
        tile: found.tile,
        count: found.a as u64,
        wanted: found.b as u64,
    }
}

/// The first fault of what shots cover in the rows of a window: the lowest tile, leftmost in its row, that is in another
/// number of shots than of trapezoids of `area`. None exactly where there is no such tile. Only memory that runs out
/// refuses it.
///
/// Parts of shots outside of the window's rows are left out of account. The cost is that of a sweep of both lists up to
/// the first slab with a fault.
pub fn first_fault(
    alloc: Global,
    shots: &[Trap],
    area: &[Trap],
    window: Window,
) -> Result<Option<Fault>, NoMemory>
    ensures fault { IfOk result (λ answer. IfSome answer (λ fault. IsFirstWrongTileInRows shots.now area.now window fault.tile fault.count fault.wanted)) }
    ensures none { IfOk result (λ answer. IfNone answer (CoversAlike shots.now area.now window)) }
{
    match first_difference(alloc, shots, area, window)? {
        None => Ok(None),
        Some(found) => Ok(Some(fault_of(&found))),
    }
}

/// The verdict on shots, whoever made them, over the rows of a window. TooLarge where some shot doesn't fit the limits,
/// with the first such shot. Otherwise Miscovered where some tile of the window is in another number of shots than of
/// trapezoids of `area`, with the lowest such tile, leftmost in its row, its number of shots and its wanted number.
/// Otherwise Exact. So where no tile is in two trapezoids of `area`, Exact says that each tile of the window is in
/// exactly one shot if it is in the area, and in none otherwise. Only memory that runs out refuses it.
pub fn check(
    alloc: Global,
    shots: &[Trap],
    area: &[Trap],
    window: Window,
    limits: &Limits,
) -> Result<Verdict, NoMemory>
    ensures exact { IfOk result (λ verdict. (verdict ≡ Exact) ↔ IsExact shots.now area.now window limits.now) }
    ensures miscovered { IfOk result (λ verdict. (t : Tile) (count wanted : ℕ) → (verdict ≡ Miscovered t count wanted) ↔ IsMiscover shots.now area.now window limits.now t count wanted) }
    ensures too_large { IfOk result (λ verdict. (k : ℕ) → (verdict ≡ TooLarge k) ↔ IsFirstTooLarge shots.now limits.now k) }
{
    if let Some(k) = too_large(shots, limits) {
        return Ok(Verdict::TooLarge(k));
    }
    match first_fault(alloc, shots, area, window)? {
        None => Ok(Verdict::Exact),
        Some(fault) => Ok(Verdict::Miscovered(fault.tile, fault.count, fault.wanted)),
    }
}
