//! The counts of an area in rows of windows that are held at once.
//!
//! They stand in a list whose last one is that of the first row of windows, so that it is the next to be taken off.
ghost use Rattle.std.specs.Prelude.{◌≡◌, ◌<◌, ◌+◌, ◌<ℤ◌, ◌++◌, ◌∷◌, IfNone, IfSome, OnOk, length, take, []};
ghost use Rattle.std.specs.Int.{int_gap};
ghost use Rattle.std.specs.List.{All};
ghost use Rattle.half_grid.specs.JoinedLists.{IsInWindow};
ghost use Rattle.half_grid.specs.Windows.{row_range};
ghost use Rattle.density_map.specs.Rows.{AreApart, row_map};
ghost use Rattle.density_map.specs.Windows.{IsRowWithinReach, IsWindowSize};
ghost use Rattle.density_report.specs.Rows.{rows_of, AreMapsOf, ArePlacesOf, IsBatch};

use crate::strips::{Batch, batch_of, number_of, without_last};
use density_map::MapRow;
use geo_stream::NoMemory;
use half_grid::{Trap, Window};
use std::alloc::Global;

/// The places of maps from `from` up to below `end`.
#[derive(Clone, Copy)]
struct Places {
    from: usize,
    end: usize,
}

// The rows of a trapezoid.
fn rows_of_trap(trap: &Trap) -> Window
    ensures rows { result ≡ row_range trap.now.y0 trap.now.y1 }
    ensures some { trap.now.y0 <ℤ trap.now.y1 }
{
    match Window::new(trap.y0(), trap.y1()) {
        Some(rows) => rows,
        None => unreachable!(),
    }
}

// The places of those rows of windows that the trapezoid meets.
fn places_of(batch: &Batch, trap: &Trap) -> Places
    requires batch { IsBatch batch.now }
    requires inside { IsInWindow (rows_of batch.now) trap.now }
    ensures { ArePlacesOf batch.now trap.now result.from result.end }
{
    let met = batch_of(&batch.mesh, rows_of_trap(trap));
    let above = Batch {
        mesh: batch.mesh,
        row: met.end,
        end: batch.end,
    };
    let both = Batch {
        mesh: batch.mesh,
        row: met.row,
        end: batch.end,
    };
    Places {
        from: number_of(&above),
        end: number_of(&both),
    }
}

// The row of windows at the end, with no counts yet.
fn map_at_end(alloc: Global, batch: &Batch) -> MapRow
    requires size { IsWindowSize batch.now.mesh.size }
    requires reach { IsRowWithinReach batch.now.mesh.size batch.now.end }
    ensures { result ≡ row_map batch.now.mesh.size batch.now.end [] }
{
    MapRow::new(alloc, batch.mesh.size, batch.end)
}

// Puts each of the rows of windows, with no counts yet.
fn put_empty(alloc: Global, batch: &Batch, maps: &mut Vec<MapRow>) -> Result<(), NoMemory>
    requires batch { IsBatch batch.now }
    requires empty { maps.old.items ≡ [] }
    ensures maps { OnOk result (AreMapsOf batch.now.mesh.size batch.now.end [] maps.new.items) }
    ensures count { OnOk result (length maps.new.items ≡ int_gap batch.now.row batch.now.end) }
{
    let mut rest = *batch;
    while rest.row < rest.end {
        rest = without_last(&rest);
        maps.push(map_at_end(alloc, &rest))?;
    }
    Ok(())
}

// Adds the next trapezoid to each row of windows that it meets.
fn add_next(
    maps: &mut Vec<MapRow>,
    batch: &Batch,
    traps: &[Trap],
    next: usize,
) -> Result<(), NoMemory>
    requires batch { IsBatch batch.now }
    requires next { next < length traps.now }
    requires apart { AreApart traps.now }
    requires inside { All (IsInWindow (rows_of batch.now)) traps.now }
    requires maps { AreMapsOf batch.now.mesh.size batch.now.end (take next traps.now) maps.old.items }
    requires count { length maps.old.items ≡ int_gap batch.now.row batch.now.end }
    ensures maps { OnOk result (AreMapsOf batch.now.mesh.size batch.now.end (take (next + 1) traps.now) maps.new.items) }
    ensures count { length maps.new.items ≡ length maps.old.items }
{
    let trap = &traps[next];
    let places = places_of(batch, trap);
    for at in places.from..places.end {
        maps[at].add(trap)?;
    }
    Ok(())
}

/// Takes off the counts of the first row of windows, if there is any.
pub(crate) fn take_first(maps: &mut Vec<MapRow>) -> Option<MapRow>
    ensures none { IfNone result (maps.old.items ≡ []) }
    ensures empty { IfNone result (maps.new.items ≡ []) }
    ensures some { IfSome result (λ map. maps.old.items ≡ maps.new.items ++ map ∷ []) }
{
    maps.pop()
}

/// Puts the counts of trapezoids that share no tile, for each of the rows of windows, in which they all lie.
///
/// It takes time linear in the trapezoids and in the rows of windows, besides adding each trapezoid to those rows of windows
/// that it meets.
pub(crate) fn put_maps(
    alloc: Global,
    batch: &Batch,
    traps: &[Trap],
    maps: &mut Vec<MapRow>,
) -> Result<(), NoMemory>
    requires batch { IsBatch batch.now }
    requires apart { AreApart traps.now }
    requires inside { All (IsInWindow (rows_of batch.now)) traps.now }
    requires empty { maps.old.items ≡ [] }
    ensures maps { OnOk result (AreMapsOf batch.now.mesh.size batch.now.end traps.now maps.new.items) }
    ensures count { OnOk result (length maps.new.items ≡ int_gap batch.now.row batch.now.end) }
{
    put_empty(alloc, batch, maps)?;
    for next in 0..traps.len() {
        add_next(maps, batch, traps, next)?;
    }
    Ok(())
}
