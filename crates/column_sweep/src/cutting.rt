//! Edges cut to the rows of a window.
ghost use Rattle.std.specs.Prelude.{◌≡◌, false, map};
ghost use Rattle.std.specs.Int.{int_min, int_max};
ghost use Rattle.column_sweep.specs.Cutting.{in_rows_of};

use crate::parting::{part_over, rows_above, rows_below};
use crate::sums::Level;
use half_grid::{Edge, Window};
use scan_line::Slab;

// Whether the edge spans rows outside of the window.
fn overhangs(edge: &Edge, window: Window) -> bool
    ensures no { result ≡ false → in_rows_of window edge.now ≡ edge.now }
{
    if edge.y0() < window.y0() {
        return true;
    }
    window.y1() < edge.y1()
}

// The rows of the window that the edge spans.
fn rows_in(edge: &Edge, window: Window) -> Slab
    ensures bottom { result.y0 ≡ int_max edge.now.y0 window.y0 }
    ensures top { result.y1 ≡ int_min edge.now.y1 window.y1 }
{
    Slab {
        y0: rows_above(edge, Level { y: window.y0() }).y0,
        y1: rows_below(edge, Level { y: window.y1() }).y1,
    }
}

// The edge's part in the rows of the window, or the edge as it is where it has none.
fn in_rows_of(edge: &Edge, window: Window) -> Edge
    ensures { result ≡ in_rows_of window edge.now }
{
    match part_over(edge, rows_in(edge, window)) {
        Some(part) => part,
        None => *edge,
    }
}

/// Cuts each edge to the rows of the window. One that spans none of them stays as it is.
pub(crate) fn cut_to(edges: &mut Vec<Edge>, window: Window)
    ensures { edges.new.items ≡ map (in_rows_of window) edges.old.items }
{
    for n in 0..edges.len() {
        if overhangs(&edges[n], window) {
            edges[n] = in_rows_of(&edges[n], window);
        }
    }
}
