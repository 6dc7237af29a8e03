//! The density tables of a deck's outputs, printed on a depot.
ghost use Rattle.std.specs.Prelude.{◌<◌, IsTrue, IfOk, OnOk, OnErr, length};
ghost use Rattle.depot.specs.Counting.{CountsWritesInMemory};
ghost use Rattle.density_map.specs.Windows.{IsWindowSize};
ghost use Rattle.deck_plan.specs.Bands.{AreRowsNear};
ghost use Rattle.density_report.specs.Saying.{IsSaid, IsDensityCutShort};
ghost use Rattle.density_report.specs.Rows.{HasRows, AreRowsPut, AreRowsCut, IsTablePut, IsTableCut, IsBeginningSaid};

use crate::areas::fill;
use crate::entries::{Totals, count_row};
use crate::maps::take_first;
use crate::saying::{say_row, say_size, say_totals};
use crate::strips::{Mesh, Strip, after_first, batch_of, counted_to, first_portion};
use crate::tabled::have_tables;
use deck_plan::Plan;
use depot::{Buffer, Depot, DepotBad, flush};
use half_grid::Window;
use std::alloc::Global;

// Puts the lines of all windows of an output, row by row, tells the depot how far that is, and answers the totals. No tile of
// its area lies outside these rows.
fn say_rows<D: Depot>(
    alloc: Global,
    depot: &mut D,
    buffer: &mut Buffer,
    plan: &Plan,
    output: usize,
    mesh: &Mesh,
    rows: Window,
) -> Result<Totals, DepotBad>
    requires output { output < length plan.now.deck.outputs }
    requires size { IsWindowSize mesh.now.size }
    requires near { AreRowsNear rows }
    requires outside { HasRows plan.now output rows }
    ensures ok { IfOk result (λ totals. AreRowsPut plan.now output mesh.now.size D.tells
        (D.content depot.old) buffer.old totals buffer.new (D.content depot.new)) }
    ensures refused { OnErr result (IsTrue D.tells
        → AreRowsCut plan.now output mesh.now.size (D.content depot.old) buffer.old (D.content depot.new)) }
    ensures counts { CountsWritesInMemory (D.counts depot.old) (D.counts depot.new) result }
{
    let mut totals = Totals {
        most: None,
        triangles: 0,
    };
    let portion = first_portion(mesh, plan.weight(), rows);
    let mut left = batch_of(mesh, rows);
    let all = left;
    depot.note(counted_to(&all, &left));
    let mut maps = Vec::new(alloc);
    while left.row < left.end {
        let Some(map) = take_first(&mut maps) else {
            left = match fill(alloc, plan, output, &left, portion, &mut maps) {
                Ok(left) => left,
                Err(_wanting) => return Err(DepotBad::NoMemory),
            };
            continue;
        };
        let strip = Strip {
            size: mesh.size,
            row: left.row,
        };
        let counts = map.counts();
        count_row(&mut totals, &strip, counts);
        say_row(depot, buffer, &strip, counts)?;
        left = after_first(&left);
        depot.note(counted_to(&all, &left));
    }
    Ok(totals)
}

// Puts the table of an output.
fn say_table<D: Depot>(
    alloc: Global,
    depot: &mut D,
    buffer: &mut Buffer,
    plan: &Plan,
    output: usize,
    mesh: &Mesh,
) -> Result<(), DepotBad>
    requires output { output < length plan.now.deck.outputs }
    requires size { IsWindowSize mesh.now.size }
    ensures ok { OnOk result (IsTablePut plan.now output mesh.now.size D.tells
        (D.content depot.old) buffer.old buffer.new (D.content depot.new)) }
    ensures refused { OnErr result (IsTrue D.tells
        → IsTableCut plan.now output mesh.now.size (D.content depot.old) buffer.old (D.content depot.new)) }
    ensures counts { CountsWritesInMemory (D.counts depot.old) (D.counts depot.new) result }
{
    let deck = plan.deck();
    let rows = plan.rows(output);
    let counted = &deck.outputs.as_slice()[output];
    say_size(depot, buffer, counted.file.as_str(), mesh)?;
    let totals = say_rows(alloc, depot, buffer, plan, output, mesh, rows)?;
    say_totals(depot, buffer, &totals)
}

// Says the tables of all outputs, one after another.
fn say_tables<D: Depot>(
    alloc: Global,
    depot: &mut D,
    plan: &Plan,
    mesh: &Mesh,
) -> Result<(), DepotBad>
    requires { IsWindowSize mesh.now.size }
    ensures ok { OnOk result (IsSaid plan.now mesh.now.size D.tells (D.content depot.old) (D.content depot.new)) }
    ensures refused { OnErr result (IsTrue D.tells
        → IsBeginningSaid plan.now mesh.now.size (D.content depot.old) (D.content depot.new)) }
    ensures counts { CountsWritesInMemory (D.counts depot.old) (D.counts depot.new) result }
{
    let count = plan.deck().outputs.as_slice().len();
    let mut buffer = Buffer::new();
    for output in 0..count {
        say_table(alloc, depot, &mut buffer, plan, output, mesh)?;
    }
    flush(depot, &mut buffer)
}

/// Prints the density table of each output of the deck, in its order, for windows of this size. After a refusal a prefix
/// of their text was printed; memory may have run out for an area or a row of windows, which no depot counts.
///
/// From the first row of windows that has some of the output's rows to the last, the area is computed for 64 rows of
/// windows at once, or for as many as have 16,777,216 rows together, and for fewer where these have many trapezoids. Where the output has nothing in them, it is computed
/// for twice as many, and so on, up to the first row of windows in which it has something. It takes the time of these
/// areas, for each trapezoid a search among the counts of each row of windows that it meets, and the same time for each
/// window that it meets. The memory is that of the area and the counts of 64 rows of windows, or of the area up to the end
/// of a gap and of as much after it as the gap is high.
pub fn say_densities<D: Depot>(
    alloc: Global,
    depot: &mut D,
    plan: &Plan,
    size: i64,
) -> Result<(), DepotBad>
    requires size { IsWindowSize size }
    ensures ok { OnOk result (IsSaid plan.now size D.tells (D.content depot.old) (D.content depot.new)) }
    ensures refused { OnErr result (IsTrue D.tells
        → IsDensityCutShort plan.now size (D.content depot.old) (D.content depot.new)) }
    ensures counts { CountsWritesInMemory (D.counts depot.old) (D.counts depot.new) result }
{
    let mesh = Mesh { size };
    have_tables(plan, &mesh);
    say_tables(alloc, depot, plan, &mesh)
}
