//! The edges of two lists of trapezoids, each as an operand.
ghost use Rattle.std.specs.Prelude.{IfOk, OnOk, ◌≡◌, ◌++◌, All};
ghost use Rattle.half_grid.specs.Trapezoids.{IsShot};
ghost use Rattle.half_grid.specs.Windows.{RowRange};
ghost use Rattle.half_grid.specs.declared.border.Operand.TheVariants.{A, B};
ghost use Rattle.scan_line.specs.Runs.{IsBalanced};
ghost use Rattle.column_sweep.specs.Operands.{meets, edges_meeting, WindsByCount};
ghost use Rattle.column_sweep.specs.RowSums.{AddUpAlike};

use crate::meeting::put_edge;
use geo_stream::NoMemory;
use half_grid::{Edge, Operand, Trap, Window};
use std::alloc::Global;

// Each of them is a shot, as every trapezoid is. It costs nothing.
fn are_shots(traps: &[Trap])
    ensures { All IsShot traps.now }
{
    for trap in traps {
        let _bottom = trap.y0();
    }
}

// Whether the trapezoid has a row of the window.
fn meets(trap: &Trap, window: Window) -> bool
    ensures { result ≡ meets window trap.now }
{
    trap.y0() < window.y1() && window.y0() < trap.y1()
}

// Puts the two edges of each trapezoid that has a row of the window at the end, less what a left side shares with the right
// side of the trapezoid before.
fn put_edges(
    edges: &mut Vec<Edge>,
    traps: &[Trap],
    operand: Operand,
    window: Window,
) -> Result<(), NoMemory>
    ensures { OnOk result (AddUpAlike edges.new.items (edges.old.items ++ edges_meeting operand window traps.now)) }
{
    for trap in traps {
        if !meets(trap, window) {
            continue;
        }
        put_edge(edges, Edge::left_of(trap, operand))?;
        edges.push(Edge::right_of(trap, operand))?;
    }
    Ok(())
}

// The edges of two lists, each as an operand.
fn edges_of_both(
    alloc: Global,
    a: &[Trap],
    b: &[Trap],
    window: Window,
) -> Result<Vec<Edge>, NoMemory>
    ensures { IfOk result (λ edges. AddUpAlike edges.items (edges_meeting A window a.now ++ edges_meeting B window b.now)) }
{
    let mut edges = Vec::new(alloc);
    put_edges(&mut edges, a, Operand::A, window)?;
    put_edges(&mut edges, b, Operand::B, window)?;
    Ok(edges)
}

/// The edges of two lists of trapezoids, the first as operand A and the second as operand B. At each tile of the window
/// an operand's winding is the number of its trapezoids that have the tile. In each row as many edges go up as down.
/// Only memory that runs out refuses it.
///
/// Trapezoids with no row of the window give no edges, so this takes memory for the others alone. Where one meets the next
/// in the list with an upright or slanted side, the common rows of both sides are left out, so that a row of trapezoids side
/// by side is no more to sweep than one.
pub fn operand_edges(
    alloc: Global,
    a: &[Trap],
    b: &[Trap],
    window: Window,
) -> Result<Vec<Edge>, NoMemory>
    ensures a { IfOk result (λ edges. WindsByCount A edges.items a.now window) }
    ensures b { IfOk result (λ edges. WindsByCount B edges.items b.now window) }
    ensures balanced { IfOk result (λ edges. (rows : RowRange) → IsBalanced edges.items rows) }
{
    are_shots(a);
    are_shots(b);
    edges_of_both(alloc, a, b, window)
}
