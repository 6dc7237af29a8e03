//! The parts of edges in a window, one by one.
ghost use Rattle.std.specs.Prelude.{◌≡◌, List};
ghost use Rattle.std.specs.Int.{int_min, int_max};
ghost use Rattle.half_grid.specs.Edges.{EdgeParts};
ghost use Rattle.geo_stream.specs.Stream.{HasList};
ghost use Rattle.scan_line.specs.ClippedEdges.{part_in, parts_in};
ghost use Rattle.scan_line.specs.ClippedStreams.{StandsForClipped, Clipped-one_list, Clipped-no_longer, Clipped-bounded};

use crate::runs::Slab;
use geo_stream::Stream;
use half_grid::{Edge, Window};

/// The parts of a stream's edges in the rows of a window. Edges that span none of them are left out.
#[derive(Clone, Copy, Debug, Drop)]
pub struct Clipped<S> {
    source: S,
    window: Window,
}

impl<S: Stream<Item = Edge>> Clipped<S> {
    /// A stream of the parts of the edges of `source` in the rows of the window.
    pub fn new(source: S, window: Window) -> Clipped<S>
        ensures some_list { HasList S.stands_for source → HasList ⟦<Clipped<S> as Stream>⟧.stands_for result }
        ensures list { (edges : List EdgeParts) → S.stands_for source edges → ⟦<Clipped<S> as Stream>⟧.stands_for result (parts_in window edges) }
    {
        Clipped { source, window }
    }
}

// The rows of the window that the edge spans.
fn rows_in(edge: &Edge, window: Window) -> Slab
    ensures bottom { result.y0 ≡ int_max edge.now.y0 window.y0 }
    ensures top { result.y1 ≡ int_min edge.now.y1 window.y1 }
{
    Slab {
        y0: edge.y0().max(window.y0()),
        y1: edge.y1().min(window.y1()),
    }
}

// The edge's part in the rows of the window, where it has one.
fn part_in(edge: &Edge, window: Window) -> Option<Edge>
    ensures { result ≡ part_in window edge.now }
{
    let rows = rows_in(edge, window);
    if rows.y1 <= rows.y0 {
        return None;
    }
    Some(Edge::of(rows.y0, rows.y1, edge.line(), edge.is_up(), edge.operand()))
}

impl<S: Stream<Item = Edge>> Stream for Clipped<S> {
    type Item = Edge;

    ghost stands_for = { λ stream. StandsForClipped S.stands_for stream.window stream.source };

    ghost size = { λ stream. S.size stream.source };

    ghost most = { S.most };

    fn next(&mut self) -> Option<Edge> {
        loop {
            match self.source.next() {
                Some(edge) => {
                    if let Some(part) = part_in(&edge, self.window) {
                        return Some(part);
                    }
                }
                None => return None,
            }
        }
    }

    ghost one_list = { λ stream xs ys. Clipped-one_list S.one_list stream.window stream.source xs ys };

    ghost no_longer = { λ stream xs. Clipped-no_longer S.no_longer stream.window stream.source xs };

    ghost bounded = { λ stream xs. Clipped-bounded S.bounded stream.window stream.source xs };
}
