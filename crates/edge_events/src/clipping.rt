//! The part of an edge in a window.
ghost use Rattle.std.specs.Prelude.{◌≡◌};
ghost use Rattle.std.specs.Int.{int_min, int_max};
ghost use Rattle.scan_line.specs.ClippedEdges.{part_in};

use half_grid::{Edge, Window};
use scan_line::Slab;

// The rows of the window that the edge spans.
#[inline]
fn rows_in(edge: &Edge, window: Window) -> Slab
    ensures bottom { result.y0 ≡ int_max edge.now.y0 window.y0 }
    ensures top { result.y1 ≡ int_min edge.now.y1 window.y1 }
{
    Slab {
        y0: edge.y0().max(window.y0()),
        y1: edge.y1().min(window.y1()),
    }
}

/// The edge's part in the rows of the window, where it has one.
#[inline]
pub(crate) fn part_in(edge: &Edge, window: Window) -> Option<Edge>
    ensures { result ≡ part_in window edge.now }
{
    let rows = rows_in(edge, window);
    if rows.y1 <= rows.y0 {
        return None;
    }
    Some(Edge::of(rows.y0, rows.y1, edge.line(), edge.is_up(), edge.operand()))
}
