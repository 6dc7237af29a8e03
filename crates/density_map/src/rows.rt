//! A row of windows.
ghost use Rattle.std.specs.Prelude.{vec_len, vec_capacity, ◌≡◌, ◌+◌, ◌<◌, ◌≤◌, ◌^◌, pos, neg_ℤ, ◌≤ℤ◌, ◌+ℤ◌, ◌-ℤ◌, ◌*ℤ◌, ◌<ℤ◌, OnOk, OnErr, []};
ghost use Rattle.std.specs.Int.{int_gap};
ghost use Rattle.density_map.specs.Frames.{IsNearSide, IsNearFrame};
ghost use Rattle.density_map.specs.Windows.{IsWindowSize, IsRowWithinReach, window};
ghost use Rattle.density_map.specs.Counts.{AreCounts, IsCountedMore};
ghost use Rattle.density_map.specs.Rows.{row_map, IsApartFrom, IsAdded, AreColumnsOf, HasRoom, HaveRoom, AreAdded, counted_in};

use crate::counts::{Counted, add_at, place_of};
use crate::tiles::tiles_in;
use geo_stream::NoMemory;
use half_grid::{Frame, Trap};
use std::alloc::Global;
use std::marker::Model;

/// The size of windows, and the number of their row.
#[derive(Clone, Copy)]
struct Strip {
    size: i64,
    row: i64,
}

/// The columns of windows from `first` up to below `end`.
#[derive(Clone, Copy)]
struct Columns {
    first: i64,
    end: i64,
}

/// The column of windows that has the column `x` of the grid.
fn column_at(strip: &Strip, x: i64) -> i64
    requires size { IsWindowSize strip.now.size }
    requires x { IsNearSide x }
    ensures from { (result *ℤ strip.now.size) ≤ℤ x }
    ensures below { x <ℤ ((result +ℤ pos 1) *ℤ strip.now.size) }
    ensures near { IsNearSide result }
{
    x.div_euclid(strip.size)
}

/// The columns of windows that have the trapezoid's box.
fn columns_of(trap: &Trap, strip: &Strip) -> Columns
    requires { IsWindowSize strip.now.size }
    ensures columns { AreColumnsOf strip.now.size trap.now result.first result.end }
    ensures first { IsNearSide result.first }
    ensures end { result.end ≤ℤ pos (2 ^ 46) }
    ensures low { neg_ℤ (pos (2 ^ 45)) ≤ℤ (result.first *ℤ strip.now.size) }
    ensures high { ((result.end -ℤ pos 1) *ℤ strip.now.size) ≤ℤ pos (2 ^ 44) }
{
    let _first_row = trap.y0();
    Columns {
        first: column_at(strip, trap.least_x()),
        end: column_at(strip, trap.greatest_x() - 1) + 1,
    }
}

/// How many columns there are.
fn number_of(columns: &Columns) -> usize
    requires first { neg_ℤ (pos (2 ^ 46)) ≤ℤ columns.now.first }
    requires end { columns.now.end ≤ℤ pos (2 ^ 46) }
    ensures { result ≡ int_gap columns.now.first columns.now.end }
{
    if columns.end <= columns.first {
        return 0;
    }
    (columns.end - columns.first) as usize
}

/// The columns after the first.
fn next_of(columns: &Columns) -> Columns
    requires low { neg_ℤ (pos (2 ^ 46)) ≤ℤ columns.now.first }
    requires high { columns.now.first ≤ℤ pos (2 ^ 46) }
    ensures first { result.first ≡ columns.now.first +ℤ pos 1 }
    ensures end { result.end ≡ columns.now.end }
{
    Columns {
        first: columns.first + 1,
        end: columns.end,
    }
}

/// The window of the first column.
fn window(strip: &Strip, columns: &Columns) -> Frame
    requires size { IsWindowSize strip.now.size }
    requires reach { IsRowWithinReach strip.now.size strip.now.row }
    requires left { IsNearSide (columns.now.first *ℤ strip.now.size) }
    requires right { IsNearSide ((columns.now.first +ℤ pos 1) *ℤ strip.now.size) }
    ensures value { result ≡ window strip.now.size columns.now.first strip.now.row }
    ensures near { IsNearFrame result }
{
    let x0 = columns.first * strip.size;
    let y0 = strip.row * strip.size;
    Frame {
        x0,
        y0,
        x1: x0 + strip.size,
        y1: y0 + strip.size,
    }
}

/// Adds the trapezoid's tiles in the window of the first column. It answers where the next one may be looked at first.
fn add_window(
    counts: &mut Vec<Counted>,
    first: usize,
    strip: &Strip,
    trap: &Trap,
    columns: &Columns,
) -> usize
    requires counts { AreCounts counts.old.items }
    requires size { IsWindowSize strip.now.size }
    requires reach { IsRowWithinReach strip.now.size strip.now.row }
    requires left { IsNearSide (columns.now.first *ℤ strip.now.size) }
    requires right { IsNearSide ((columns.now.first +ℤ pos 1) *ℤ strip.now.size) }
    requires room { HasRoom strip.now.size strip.now.row columns.now.first counts.old.items trap.now }
    requires capacity { vec_len counts.old < vec_capacity counts.old }
    ensures counts { AreCounts counts.new.items }
    ensures more { IsCountedMore counts.old.items (counted_in strip.now.size strip.now.row trap.now columns.now.first) counts.new.items }
    ensures len { vec_len counts.new ≤ vec_len counts.old + 1 }
    ensures capacity { vec_capacity counts.old ≤ vec_capacity counts.new }
{
    let frame = window(strip, columns);
    let more = Counted {
        column: columns.first,
        tiles: tiles_in(trap, &frame),
    };
    if more.tiles == 0 {
        return first;
    }
    let at = place_of(counts.as_slice(), first, &more);
    add_at(counts, at, more);
    at + 1
}

/// Adds the trapezoid's tiles in each window.
fn add_windows(counts: &mut Vec<Counted>, strip: &Strip, trap: &Trap) -> Result<(), NoMemory>
    requires counts { AreCounts counts.old.items }
    requires size { IsWindowSize strip.now.size }
    requires reach { IsRowWithinReach strip.now.size strip.now.row }
    requires room { HaveRoom strip.now.size strip.now.row counts.old.items trap.now }
    ensures counts { AreCounts counts.new.items }
    ensures ok { OnOk result (AreAdded strip.now.size strip.now.row counts.old.items trap.now counts.new.items) }
    ensures no_memory { OnErr result (counts.new.items ≡ counts.old.items) }
{
    let mut columns = columns_of(trap, strip);
    if counts.reserve(number_of(&columns)).is_err() {
        return Err(NoMemory);
    }
    let mut first = 0;
    while columns.first < columns.end {
        first = add_window(counts, first, strip, trap, &columns);
        columns = next_of(&columns);
    }
    Ok(())
}

/// A row of windows of one size, with the number of tiles in each that has some. Contracts see it as the plain record of
/// the size, the number of the row and the counts.
#[derive(Debug, Drop)]
pub struct MapRow {
    size: i64,
    row: i64,
    counts: Vec<Counted>,
}

impl Model for MapRow {
    ghost use Rattle.density_map.specs.Rows.{RowMap, IsRowMap, row_map};

    ghost Value = { RowMap };

    ghost view = { λ m. row_map m.size m.row m.counts.items };

    ghost invariant = { λ m. IsRowMap (row_map m.size m.row m.counts.items) };
}

impl MapRow {
    /// The row of windows with this number, with no counts yet. It takes no memory.
    pub fn new(alloc: Global, size: i64, row: i64) -> MapRow
        requires size { IsWindowSize size }
        requires reach { IsRowWithinReach size row }
        ensures { result ≡ row_map size row [] }
    {
        MapRow {
            size,
            row,
            counts: Vec::new(alloc),
        }
    }

    /// Adds the trapezoid's tiles to each window that it meets. It shares no tile with one that was added before. The
    /// memory is taken first, and where it runs out all is as before.
    ///
    /// It takes a search among the counts, then the same time for each window that it meets. Where a window has its
    /// first count, the counts after it move: none, where trapezoids are added from left to right.
    pub fn add(&mut self, trap: &Trap) -> Result<(), NoMemory>
        requires apart { IsApartFrom self.old trap.now }
        ensures ok { OnOk result (IsAdded self.old trap.now self.new) }
        ensures no_memory { OnErr result (self.new ≡ self.old) }
    {
        let strip = Strip {
            size: self.size,
            row: self.row,
        };
        add_windows(&mut self.counts, &strip, trap)
    }

    /// The counts above 0, by ascending column.
    pub fn counts(&self) -> &[Counted]
        ensures value { result.now ≡ self.now.counts }
        ensures counts { AreCounts result.now }
    {
        self.counts.as_slice()
    }
}
