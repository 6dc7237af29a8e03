//! Rows of windows, as numbers.
ghost use Rattle.std.specs.Prelude.{◌≡◌, pos, neg_ℤ, ◌^◌, ◌+ℤ◌, ◌-ℤ◌, ◌*ℤ◌, ◌≤ℤ◌, ◌<ℤ◌};
ghost use Rattle.std.specs.Int.{int_gap, int_min};
ghost use Rattle.depot.specs.declared.outside.Phase.TheVariants.{Counting};
ghost use Rattle.density_map.specs.Frames.{IsNearSide};
ghost use Rattle.density_map.specs.Windows.{IsWindowSize};
ghost use Rattle.density_report.specs.Rows.{rows_of, AreNearRows, HoldRows, IsBatch, IsPart, IsPortion};

use depot::{Phase, Progress};
use half_grid::Window;

/// How many rows of the half grid an area is asked for at once, at most.
const MOST_ROWS: i64 = 16_777_216;

/// About how many trapezoids an area should have, where a row of windows has no more.
const MANY: u64 = 65_536;

/// How many rows of windows with counts are held at once, at most.
const MOST_MAPS: i64 = 64;

/// The windows of one size.
#[derive(Clone, Copy)]
pub(crate) struct Mesh {
    pub(crate) size: i64,
}

/// A row of windows: their size, and its number.
#[derive(Clone, Copy)]
pub(crate) struct Strip {
    pub(crate) size: i64,
    pub(crate) row: i64,
}

/// The rows of windows from `row` up to below `end`.
#[derive(Clone, Copy)]
pub(crate) struct Batch {
    pub(crate) mesh: Mesh,
    pub(crate) row: i64,
    pub(crate) end: i64,
}

/// A number of rows of the half grid.
#[derive(Clone, Copy)]
pub(crate) struct Portion {
    pub(crate) rows: i64,
}

/// The row of windows that has the row `y` of the half grid.
pub(crate) fn row_of(mesh: &Mesh, y: i64) -> i64
    requires size { IsWindowSize mesh.now.size }
    requires y { IsNearSide y }
    ensures from { (result *ℤ mesh.now.size) ≤ℤ y }
    ensures below { y <ℤ ((result +ℤ pos 1) *ℤ mesh.now.size) }
    ensures near { IsNearSide result }
{
    y.div_euclid(mesh.size)
}

/// The rows of windows that have these rows of the half grid, and no other.
pub(crate) fn batch_of(mesh: &Mesh, rows: Window) -> Batch
    requires size { IsWindowSize mesh.now.size }
    requires near { AreNearRows rows }
    ensures mesh { result.mesh ≡ mesh.now }
    ensures rows { HoldRows mesh.now.size rows result.row result.end }
{
    Batch {
        mesh: *mesh,
        row: row_of(mesh, rows.y0()),
        end: row_of(mesh, rows.y1() - 1) + 1,
    }
}

/// The rows of these windows.
pub(crate) fn rows_of(batch: &Batch) -> Window
    requires { IsBatch batch.now }
    ensures { result ≡ rows_of batch.now }
{
    let bottom = batch.row * batch.mesh.size;
    match Window::new(bottom, batch.end * batch.mesh.size) {
        Some(rows) => rows,
        None => unreachable!(),
    }
}

/// How many rows of windows there are.
pub(crate) fn number_of(batch: &Batch) -> usize
    requires low { neg_ℤ (pos (2 ^ 46)) ≤ℤ batch.now.row }
    requires high { batch.now.end ≤ℤ pos (2 ^ 46) }
    ensures { result ≡ int_gap batch.now.row batch.now.end }
{
    if batch.end <= batch.row {
        return 0;
    }
    (batch.end - batch.row) as usize
}

/// The rows of windows after the first.
pub(crate) fn after_first(batch: &Batch) -> Batch
    requires batch { IsBatch batch.now }
    requires some { batch.now.row <ℤ batch.now.end }
    ensures mesh { result.mesh ≡ batch.now.mesh }
    ensures row { result.row ≡ batch.now.row +ℤ pos 1 }
    ensures end { result.end ≡ batch.now.end }
{
    Batch {
        mesh: batch.mesh,
        row: batch.row + 1,
        end: batch.end,
    }
}

/// The rows of windows from this one on.
pub(crate) fn from_strip(batch: &Batch, strip: &Strip) -> Batch
    ensures mesh { result.mesh ≡ batch.now.mesh }
    ensures row { result.row ≡ strip.now.row }
    ensures end { result.end ≡ batch.now.end }
{
    Batch {
        mesh: batch.mesh,
        row: strip.row,
        end: batch.end,
    }
}

/// The rows of windows after those of a part of them.
pub(crate) fn above(batch: &Batch, part: &Batch) -> Batch
    ensures mesh { result.mesh ≡ batch.now.mesh }
    ensures row { result.row ≡ part.now.end }
    ensures end { result.end ≡ batch.now.end }
{
    Batch {
        mesh: batch.mesh,
        row: part.end,
        end: batch.end,
    }
}

/// The rows of windows but for the last.
pub(crate) fn without_last(batch: &Batch) -> Batch
    requires batch { IsBatch batch.now }
    requires some { batch.now.row <ℤ batch.now.end }
    ensures mesh { result.mesh ≡ batch.now.mesh }
    ensures row { result.row ≡ batch.now.row }
    ensures end { result.end ≡ batch.now.end -ℤ pos 1 }
{
    Batch {
        mesh: batch.mesh,
        row: batch.row,
        end: batch.end - 1,
    }
}

/// As many rows as the windows that are held at once have, or fewer where so many would have many trapezoids, by about how
/// many the layout has and by the output's rows; but those of one row of windows at least.
pub(crate) fn first_portion(mesh: &Mesh, weight: u64, output: Window) -> Portion
    requires { IsWindowSize mesh.now.size }
    ensures { IsPortion mesh.now.size result }
{
    let parts = (weight / MANY).clamp(1, 16_777_216) as i64;
    let few = output.y1().saturating_sub(output.y0()) / parts;
    Portion {
        rows: few.min(MOST_MAPS * mesh.size).clamp(mesh.size, MOST_ROWS),
    }
}

/// Twice as many, but no more than an area is asked for at once.
pub(crate) fn doubled(portion: &Portion) -> Portion
    requires low { pos 0 ≤ℤ portion.now.rows }
    requires high { portion.now.rows ≤ℤ pos 16777216 }
    ensures no_fewer { portion.now.rows ≤ℤ result.rows }
    ensures high { result.rows ≤ℤ pos 16777216 }
{
    Portion {
        rows: (2 * portion.rows).min(MOST_ROWS),
    }
}

/// The first of some rows of windows: at least one, and together with no more rows than the portion has.
pub(crate) fn lower(left: &Batch, portion: &Portion) -> Batch
    requires left { IsBatch left.now }
    requires some { left.now.row <ℤ left.now.end }
    requires portion { IsPortion left.now.mesh.size portion.now }
    ensures { IsPart left.now result }
{
    let top = left.row * left.mesh.size + portion.rows;
    Batch {
        mesh: left.mesh,
        row: left.row,
        end: row_of(&left.mesh, top).min(left.end),
    }
}

/// How far the rows of windows are of which these are left.
pub(crate) fn counted_to(all: &Batch, left: &Batch) -> Progress
    ensures phase { result.phase ≡ Counting }
    ensures rows { result.rows ≡ int_gap all.now.row (int_min left.now.row all.now.end) }
    ensures all_rows { result.all_rows ≡ int_gap all.now.row all.now.end }
{
    Progress::up_to(Phase::Counting, all.row, all.end, left.row, 0)
}
