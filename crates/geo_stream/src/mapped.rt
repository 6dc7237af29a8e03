//! A function's answers at the items of a stream.
ghost use Rattle.std.specs.Prelude.{All, List};
ghost use Rattle.std.specs.List.{AllZip};
ghost use Rattle.geo_stream.specs.Mapped.{HasOneAnswer, IsTheAnswer, StandsForMapped};
ghost use Rattle.geo_stream.specs.Laws.Mapped.{Mapped-one_list, Mapped-no_longer, Mapped-bounded};
ghost use Rattle.geo_stream.specs.Stream.{HasList};

use crate::Stream;

/// The answers of a function at the items of a stream, in order.
#[derive(Clone, Copy, Drop)]
pub struct Mapped<S, F> {
    source: S,
    function: F,
}

impl<S: Stream, U, F: Fn(S::Item) -> U> Mapped<S, F> {
    /// A stream of the answers of `function` at the items of `source`.
    ///
    /// The function may be called on every item to come, and its promise allows one answer for each of them.
    pub fn new(source: S, function: F) -> Mapped<S, F>
        requires { (items : List S.Item) × S.stands_for source items × All (HasOneAnswer (F.pre function) (F.post function)) items }
        ensures some_list { HasList ⟦<Mapped<S, F> as Stream>⟧.stands_for result }
        ensures list { (items : List S.Item) (answers : List U) → S.stands_for source items → AllZip (IsTheAnswer (F.pre function) (F.post function)) items answers → ⟦<Mapped<S, F> as Stream>⟧.stands_for result answers }
    {
        Mapped { source, function }
    }
}

impl<S: Stream, U, F: Fn(S::Item) -> U> Stream for Mapped<S, F> {
    type Item = U;

    ghost stands_for = { λ stream. StandsForMapped S.stands_for (F.pre stream.function) (F.post stream.function) stream.source };

    ghost size = { λ stream. S.size stream.source };

    ghost most = { S.most };

    fn next(&mut self) -> Option<U> {
        match self.source.next() {
            Some(item) => Some((self.function)(item)),
            None => None,
        }
    }

    ghost one_list = { λ stream xs ys. Mapped-one_list S.one_list stream.source xs ys };

    ghost no_longer = { λ stream xs. Mapped-no_longer S.no_longer stream.source xs };

    ghost bounded = { λ stream xs. Mapped-bounded S.bounded stream.source xs };
}
