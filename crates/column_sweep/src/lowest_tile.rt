//! The lowest tile that a rule takes, looked for by one sweep from below.
ghost use Rattle.std.specs.Prelude.{◌≡◌, ◌↔◌, IsTrue, IfOk, IfSome, IfNone};
ghost use Rattle.half_grid.specs.Rows.{number_in_row, place};
ghost use Rattle.half_grid.specs.Trapezoids.{IsShot, trapezoid};
ghost use Rattle.scan_line.specs.Rules.{IsRule, IsWinding, Takes};
ghost use Rattle.scan_line.specs.Runs.{IsBalanced};
ghost use Rattle.plane_sweep.specs.Lowest.{IsLowest, TakesNone};
ghost use Rattle.column_sweep.specs.Looking.{IsFirstTaken};

use geo_stream::NoMemory;
use half_grid::{Edge, Tile, Window, place_of, tile_at};
use plane_sweep::LowestTile;
use scan_line::{Rule, Run, Scan, Slab};
use std::alloc::Global;

// The leftmost tile of a run in the lowest row of its slab.
fn first_tile(slab: Slab, run: &Run) -> Tile
    requires { IsShot (trapezoid slab.y0 slab.y1 run.now.left run.now.right) }
    ensures row { result.j ≡ slab.y0 }
    ensures number { number_in_row result ≡ place run.now.left slab.y0 }
{
    tile_at(slab.y0, place_of(run.left, slab.y0))
}

// The first tile that a scan takes, from its first slab on.
fn first_taken<F: Fn(i128, i128) -> bool + Drop>(scan: &mut Scan<F>) -> Option<LowestTile>
    requires rule { IsRule (F.pre scan.old.rule) (F.post scan.old.rule) }
    requires fresh { scan.old.y ≡ scan.old.window.y0 }
    ensures found { IfSome result (IsLowest (F.post scan.old.rule) scan.old.edges scan.old.window) }
    ensures none { IfNone result (TakesNone (F.post scan.old.rule) scan.old.edges scan.old.window) }
{
    while let Some(slab) = scan.next() {
        if let Some(run) = scan.runs().first() {
            return Some(LowestTile {
                tile: first_tile(slab, run),
                a: run.a,
                b: run.b,
            });
        }
    }
    None
}

/// The lowest tile of the rows that a lent rule takes, leftmost in its row, by one sweep from below. It ends at the
/// first slab with such a tile.
pub(crate) fn lowest_within<F: Fn(i128, i128) -> bool + Drop>(
    alloc: Global,
    edges: Vec<Edge>,
    rows: Window,
    rule: &Rule<F>,
) -> Result<Option<LowestTile>, NoMemory>
    requires rule { IsRule (F.pre rule.now) (F.post rule.now) }
    requires balanced { IsBalanced edges.items rows }
    ensures { IfOk result (IsFirstTaken (F.post rule.now) edges.items rows) }
{
    let asked = Rule::new(
        |a: i128, b: i128| -> bool
            requires rule { IsRule (F.pre rule.now) (F.post rule.now) }
            requires first { IsWinding a }
            requires second { IsWinding b }
            ensures { IsTrue result ↔ Takes (F.post rule.entry.now) a b }
        { rule.asks(a, b) },
    );
    let mut scan = Scan::begin(alloc, edges, rows, asked)?;
    Ok(first_taken(&mut scan))
}
