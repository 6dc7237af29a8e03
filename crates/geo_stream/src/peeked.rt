//! A stream whose first item can be looked at.
ghost use Rattle.std.specs.Prelude.{◌+◌, List, length};
ghost use Rattle.std.specs.Option.{option_to_list};
ghost use Rattle.geo_stream.specs.Peeked.{StandsForPeeked};
ghost use Rattle.geo_stream.specs.Laws.Peeked.{Peeked-one_list, Peeked-no_longer, Peeked-bounded};
ghost use Rattle.geo_stream.specs.Stream.{HasList};

use crate::Stream;
use std::mem;

/// A stream of which the first item was taken already, and is kept here.
#[derive(Drop)]
pub(crate) struct Peeked<S: Stream> {
    pub(crate) head: Option<S::Item>,
    pub(crate) rest: S,
}

impl<S: Stream> Peeked<S> {
    /// The stream, with its first item taken.
    pub(crate) fn new(mut rest: S) -> Peeked<S>
        requires { HasList S.stands_for rest }
        ensures { (items : List S.Item) → S.stands_for rest items → ⟦<Peeked<S> as Stream>⟧.stands_for result items }
    {
        let head = rest.next();
        Peeked { head, rest }
    }
}

impl<S: Stream> Stream for Peeked<S> {
    type Item = S::Item;

    ghost stands_for = { λ stream. StandsForPeeked S.stands_for stream.rest stream.head };

    ghost size = { λ stream. length (option_to_list stream.head) + S.size stream.rest };

    ghost most = { 1 + S.most };

    fn next(&mut self) -> Option<S::Item> {
        let next = self.rest.next();
        mem::replace(&mut self.head, next)
    }

    ghost one_list = { λ stream xs ys. Peeked-one_list S.one_list stream.rest stream.head xs ys };

    ghost no_longer = { λ stream xs. Peeked-no_longer S.no_longer stream.rest stream.head xs };

    ghost bounded = { λ stream xs. Peeked-bounded S.bounded stream.rest stream.head xs };
}
