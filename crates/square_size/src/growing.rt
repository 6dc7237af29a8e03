//! The edges of the rings of the grown trapezoids of a stream.
ghost use Rattle.std.specs.Prelude.{◌+◌, ◌*◌, All, List, flat_map, length};
ghost use Rattle.geo_stream.specs.Stream.{HasList};
ghost use Rattle.half_grid.specs.Trapezoids.{Trapezoid};
ghost use Rattle.square_size.specs.Edges.{edges_of_grown};
ghost use Rattle.square_size.specs.Growing.{StandsForGrown};
ghost use Rattle.square_size.specs.Laws.Growing.{Grown-one_list, Grown-no_longer, Grown-bounded};
ghost use Rattle.square_size.specs.Rings.{HasRingWithinReach, IsSizing};

use crate::pieces::Pieces;
use crate::rings::HalfSides;
use geo_stream::Stream;
use half_grid::{Edge, Trap};
use std::alloc::Global;

/// The edges of the rings of the grown trapezoids of a stream, ring by ring, each with the operand A. Horizontal sides
/// of the rings give none.
#[derive(Drop)]
pub struct Grown<S> {
    source: S,
    by: HalfSides,
    in_hand: Pieces,
}

impl<S: Stream<Item = Trap>> Grown<S> {
    /// A stream of the edges of the rings of the trapezoids of `source`, which grow by the rectangle of half sides `dx`
    /// and `dy`. It takes no memory.
    ///
    /// `dx` and `dy` are 0 to 65,536, their sum is even, and each ring is within reach.
    pub fn new(_alloc: Global, source: S, dx: i64, dy: i64) -> Grown<S>
        requires sizing { IsSizing dx dy }
        requires traps { (traps : List Trapezoid) × S.stands_for source traps × All (HasRingWithinReach dx dy) traps }
        ensures some_list { HasList ⟦<Grown<S> as Stream>⟧.stands_for result }
        ensures list { (traps : List Trapezoid) → S.stands_for source traps → ⟦<Grown<S> as Stream>⟧.stands_for result (flat_map (edges_of_grown dx dy) traps) }
    {
        Grown {
            source,
            by: HalfSides { dx, dy },
            in_hand: Pieces::none(),
        }
    }
}

impl<S: Stream<Item = Trap>> Stream for Grown<S> {
    type Item = Edge;

    ghost stands_for = { λ stream. StandsForGrown S.stands_for stream.by.dx stream.by.dy stream.source stream.in_hand };

    ghost size = { λ stream. length stream.in_hand + 4 * S.size stream.source };

    ghost most = { 4 + 4 * S.most };

    fn next(&mut self) -> Option<Edge> {
        loop {
            if let Some(edge) = self.in_hand.take_first() {
                return Some(edge);
            }
            match self.source.next() {
                Some(trap) => self.in_hand.fill(&trap, self.by),
                None => return None,
            }
        }
    }

    ghost one_list = { λ stream xs ys. Grown-one_list S.one_list stream.source stream.in_hand xs ys };

    ghost no_longer = { λ stream xs. Grown-no_longer S.no_longer stream.source stream.in_hand xs };

    ghost bounded = { λ stream xs. Grown-bounded S.bounded stream.source stream.in_hand xs };
}
