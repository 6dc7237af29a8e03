//! The mirror images of the trapezoids of a stream.
ghost use Rattle.std.specs.Prelude.{All, List, map};
ghost use Rattle.geo_stream.specs.Stream.{HasList};
ghost use Rattle.half_grid.specs.Trapezoids.{Trapezoid};
ghost use Rattle.tone_mirror.specs.Images.{StandsForImages};
ghost use Rattle.tone_mirror.specs.Laws.Images.{Images-one_list, Images-no_longer, Images-bounded};
ghost use Rattle.tone_mirror.specs.Mirrors.{mirrored_trapezoid, HasImageWithinReach};

use crate::mirror::mirrored;
use geo_stream::Stream;
use half_grid::Trap;

/// The mirror images of the trapezoids of a stream at one upright line, in order.
#[derive(Clone, Copy, Debug, Drop)]
pub struct Mirrored<S> {
    source: S,
    m: i64,
}

impl<S: Stream<Item = Trap>> Mirrored<S> {
    /// A stream of the images at `X = m` of the trapezoids of `source`. It takes no memory.
    ///
    /// Each image is within reach.
    pub fn new(source: S, m: i64) -> Mirrored<S>
        requires { (traps : List Trapezoid) × S.stands_for source traps × All (HasImageWithinReach m) traps }
        ensures some_list { HasList ⟦<Mirrored<S> as Stream>⟧.stands_for result }
        ensures list { (traps : List Trapezoid) → S.stands_for source traps → ⟦<Mirrored<S> as Stream>⟧.stands_for result (map (mirrored_trapezoid m) traps) }
    {
        Mirrored { source, m }
    }
}

impl<S: Stream<Item = Trap>> Stream for Mirrored<S> {
    type Item = Trap;

    ghost stands_for = { λ stream. StandsForImages S.stands_for stream.m stream.source };

    ghost size = { λ stream. S.size stream.source };

    ghost most = { S.most };

    fn next(&mut self) -> Option<Trap> {
        match self.source.next() {
            Some(trap) => Some(mirrored(&trap, self.m)),
            None => None,
        }
    }

    ghost one_list = { λ stream xs ys. Images-one_list S.one_list stream.source xs ys };

    ghost no_longer = { λ stream xs. Images-no_longer S.no_longer stream.source xs };

    ghost bounded = { λ stream xs. Images-bounded S.bounded stream.source xs };
}
