//! Two streams, one after the other.
ghost use Rattle.std.specs.Prelude.{◌+◌, ◌++◌, List};
ghost use Rattle.geo_stream.specs.Stream.{HasList};
ghost use Rattle.geo_stream.specs.Joined.{StandsForJoined};
ghost use Rattle.geo_stream.specs.Laws.Joined.{Joined-one_list, Joined-no_longer, Joined-bounded};

use crate::Stream;

/// The items of one stream, then those of another.
#[derive(Clone, Copy, Debug, Drop)]
pub struct Joined<A, B> {
    first: A,
    second: B,
}

impl<A: Stream, B: Stream<Item = A::Item>> Joined<A, B> {
    /// A stream of the items of `first`, then those of `second`.
    pub fn new(first: A, second: B) -> Joined<A, B>
        ensures some_list { HasList A.stands_for first → HasList B.stands_for second → HasList ⟦<Joined<A, B> as Stream>⟧.stands_for result }
        ensures list { (xs ys : List A.Item) → A.stands_for first xs → B.stands_for second ys → ⟦<Joined<A, B> as Stream>⟧.stands_for result (xs ++ ys) }
    {
        Joined { first, second }
    }
}

impl<A: Stream, B: Stream<Item = A::Item>> Stream for Joined<A, B> {
    type Item = A::Item;

    ghost stands_for = { λ stream. StandsForJoined A.stands_for B.stands_for stream.first stream.second };

    ghost size = { λ stream. A.size stream.first + B.size stream.second };

    ghost most = { A.most + B.most };

    fn next(&mut self) -> Option<A::Item> {
        match self.first.next() {
            Some(item) => Some(item),
            None => self.second.next(),
        }
    }

    ghost one_list = { λ stream xs ys. Joined-one_list A.one_list B.one_list stream.first stream.second xs ys };

    ghost no_longer = { λ stream xs. Joined-no_longer A.no_longer B.no_longer stream.first stream.second xs };

    ghost bounded = { λ stream xs. Joined-bounded A.bounded B.bounded stream.first stream.second xs };
}
