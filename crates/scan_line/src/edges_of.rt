//! The edges of a point list, one by one.
ghost use Rattle.std.specs.Prelude.{◌≡◌, ◌^◌, All, length};
ghost use Rattle.half_grid.specs.Reach.{IsPointWithinReach};
ghost use Rattle.scan_line.specs.OutlineEdges.{edge_between, edges_along, first_edge};
ghost use Rattle.scan_line.specs.OutlineStreams.{StandsForOutline, Outline-one_list, Outline-no_longer, Outline-bounded};

use geo_stream::Stream;
use half_grid::{Edge, Operand, Point, line_through};

/// The edges of a point list that aren't horizontal: each point with the next, on the line through both.
#[derive(Clone, Copy, Debug, Drop)]
pub struct EdgesOf<'a> {
    points: &'a [Point],
    operand: Operand,
}

impl<'a> EdgesOf<'a> {
    /// A stream of the edges of the list, each with this operand. The points are within reach. Where the list is
    /// closed and each of its edges is horizontal or on a line of the half grid, they wind as the list does.
    pub fn new(points: &'a [Point], operand: Operand) -> EdgesOf<'a>
        requires { All IsPointWithinReach points.now }
        ensures { ⟦<EdgesOf<'a> as Stream>⟧.stands_for result (edges_along operand points.entry.now) }
    {
        EdgesOf { points, operand }
    }
}

// The edge from one point to another, where it has one.
fn edge_between(a: Point, b: Point, operand: Operand) -> Option<Edge>
    requires first { IsPointWithinReach a }
    requires second { IsPointWithinReach b }
    ensures { result ≡ edge_between operand (a, b) }
{
    match line_through(a, b) {
        None => None,
        Some(line) => {
            if a.y < b.y {
                return Some(Edge::of(a.y, b.y, line, true, operand));
            }
            Some(Edge::of(b.y, a.y, line, false, operand))
        }
    }
}

// The edge from a point to the next.
fn first_edge(point: Point, rest: &[Point], operand: Operand) -> Option<Edge>
    requires first { IsPointWithinReach point }
    requires rest { All IsPointWithinReach rest.now }
    ensures { result ≡ first_edge operand point rest.now }
{
    match rest.first() {
        Some(next) => edge_between(point, *next, operand),
        None => None,
    }
}

impl<'a> Stream for EdgesOf<'a> {
    type Item = Edge;

    ghost stands_for = { λ stream. StandsForOutline stream.operand stream.points.now };

    ghost size = { λ stream. length stream.points.now };

    ghost most = { 2 ^ 64 };

    fn next(&mut self) -> Option<Edge> {
        while let Some((point, rest)) = self.points.split_first() {
            self.points = rest;
            if let Some(edge) = first_edge(*point, rest, self.operand) {
                return Some(edge);
            }
        }
        None
    }

    ghost one_list = { λ stream. Outline-one_list stream.operand stream.points.now };

    ghost no_longer = { λ stream. Outline-no_longer stream.operand stream.points.now };

    ghost bounded = { λ stream. Outline-bounded stream.operand stream.points.now };
}
